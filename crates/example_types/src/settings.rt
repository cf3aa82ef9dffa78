//! Settings: a map of labels.
//!
//! ```cddl
//! settings = { 1 => int, ? 2 => bstr, ? 4 => int, * int => any }
//! ```

ghost use Rattle.std.specs.Prelude.{◌≡◌, ◌<◌, ℤ, not, IfOk, IfErr};
ghost use Rattle.std.specs.Map.{keys_of};
ghost use Rattle.coset_codec.specs.declared.error.CoseError.TheVariants.{OutOfMemory};
ghost use Rattle.coset_codec.specs.Maps.{are_distinct};
ghost use Rattle.coset_codec.specs.Shape.{int64};
ghost use Rattle.coset_codec.specs.ShapeLaws.{int64_laws};
ghost use Rattle.example_types.specs.Settings.{name_view, names, view, settings, so_far_view};

use coset_cbor::value::Value;
use coset_codec::read::{Decoder, MapEntries, MapVisitor, read_map, set_field};
use coset_codec::write::{Encode, write_field, write_optional, write_pairs_head, write_rest};
use coset_codec::{Codec, CoseError, Result, TaggedCodec, has_repeats};
use std::alloc::Global;

/// A label: a signed 64-bit number.
#[derive(Clone, Copy, Debug, PartialEq, Eq, PartialOrd, Ord)]
pub struct Name(pub i64);

impl Codec for Name {
    ghost use Rattle.std.proofs.Common.{rules};

    ghost View = { ℤ };

    ghost view = { name_view };

    ghost shape = { int64 };

    ghost laws = { int64_laws };

    ghost equal = { Prim.search rules };

    fn read(_alloc: Global, input: &mut Decoder<'_>) -> Result<Name> {
        Ok(Name(input.int64("int")?))
    }

    fn write(&self, alloc: Global, out: &mut Vec<u8>) -> Result<()> {
        self.0.encode(alloc, out)
    }
}

/// Settings: a level, an optional name, an optional limit, and all other pairs of the map, in
/// order.
#[derive(Debug, Drop, PartialEq, Eq)]
pub struct Settings {
    /// Label 1.
    pub level: i64,
    /// Label 2.
    pub name: Option<Vec<u8>>,
    /// Label 4.
    pub limit: Option<i64>,
    /// The pairs with other labels.
    pub rest: Vec<(Name, Value)>,
}

/// Partly read settings.
#[derive(Drop)]
struct PartialSettings {
    level: Option<i64>,
    name: Option<Vec<u8>>,
    limit: Option<i64>,
    rest: Vec<(Name, Value)>,
}

impl MapVisitor for PartialSettings {
    type Label = Name;

    ghost use Rattle.example_types.specs.Settings.{fields, names_laws, fields_laws};
    ghost use Rattle.std.specs.Prelude.{Option, List, ℕ};

    ghost LabelView = { ℤ };

    ghost FieldValues = { Option ℤ × (Option (List ℕ) × (Option ℤ × Unit {0})) };

    ghost names = { names };

    ghost fields = { fields };

    ghost named = { name_view };

    ghost view = { so_far_view };

    ghost lawful_names = { names_laws };

    ghost lawful_fields = { fields_laws };

    fn next_label(
        alloc: Global,
        pairs: &mut MapEntries,
        input: &mut Decoder<'_>,
    ) -> Result<Option<Name>> {
        pairs.next_key(alloc, input)
    }

    fn add(&mut self, alloc: Global, label: Name, input: &mut Decoder<'_>) -> Result<()> {
        if label.0 == 1 {
            return set_field(alloc, &mut self.level, input);
        }
        if label.0 == 2 {
            return set_field(alloc, &mut self.name, input);
        }
        if label.0 == 4 {
            return set_field(alloc, &mut self.limit, input);
        }
        let value = input.value(alloc)?;
        self.rest.push((label, value))?;
        Ok(())
    }

    fn repeats(&self, alloc: Global) -> Result<bool>
        ensures repeats { IfOk result (λ b. b ≡ not
            (are_distinct names.same (keys_of (so_far_view self.now).1))) }
        ensures memory { IfErr result (λ e. e ≡ OutOfMemory) }
    {
        has_repeats(alloc, &self.rest)
    }
}

impl Codec for Settings {
    ghost use Rattle.std.proofs.Common.{rules};
    ghost use Rattle.std.specs.Cmp.{signed_Decides};
    ghost use Rattle.std.specs.Prelude.{refl};
    ghost use Rattle.coset_value.specs.SameLaws.{item_eq-decides};
    ghost use Rattle.coset_value.specs.View.{value_item};
    ghost use Rattle.coset_codec.specs.EqDecides.{bstr_decides, lists_decides, part_decides, parts_decide};
    ghost use Rattle.example_types.specs.Settings.{entry_view};
    ghost use Rattle.example_types.specs.Settings.{View as SettingsView, settings_laws};

    ghost View = { SettingsView };

    ghost view = { view };

    ghost shape = { settings };

    ghost laws = { settings_laws };

    ghost equal = { λ a b. parts_decide
        (λ p. record { level = p.0; name = p.1.0; limit = p.1.1.0; rest = p.1.1.1 })
        (λ x. (x.level, (x.name, (x.limit, x.rest)))) (λ x. refl)
        (part_decides (signed_Decides a.level b.level) (part_decides (bstr_decides a.name b.name)
        (part_decides (Prim.search rules) (lists_decides entry_view _
        (λ x y. part_decides (signed_Decides x.0.0 y.0.0) (item_eq-decides (value_item x.1)
        (value_item y.1)))
        a.rest.items b.rest.items)))) };

    fn read(alloc: Global, input: &mut Decoder<'_>) -> Result<Settings> {
        let mut so_far = PartialSettings {
            level: None,
            name: None,
            limit: None,
            rest: Vec::new(alloc),
        };
        read_map(alloc, input, &mut so_far)?;
        let PartialSettings {
            level,
            name,
            limit,
            rest,
        } = so_far;
        let Some(level) = level else {
            return Err(CoseError::UnexpectedItem("no level", "level"));
        };
        Ok(Settings {
            level,
            name,
            limit,
            rest,
        })
    }

    fn write(&self, alloc: Global, out: &mut Vec<u8>) -> Result<()> {
        if has_repeats(alloc, &self.rest)? {
            return Err(CoseError::DuplicateMapKey);
        }
        write_pairs_head(
            &[true, self.name.is_some(), self.limit.is_some()],
            &self.rest,
            out,
        )?;
        write_field(alloc, 1, &self.level, out)?;
        write_optional(alloc, 2, &self.name, out)?;
        write_optional(alloc, 4, &self.limit, out)?;
        write_rest(alloc, &self.rest, out)
    }
}

impl TaggedCodec for Settings {
    ghost TAG_NUMBER = { 1001 };

    const TAG_NUMBER: u64 = 1001;
}
