//! Nested parts: recipients in a recipient, and signatures in a header.

ghost use Rattle.std.specs.Prelude.{◌≡◌, ◌↔◌};
ghost use Rattle.coset_value.specs.Item.{Item};
ghost use Rattle.coset_codec.specs.AsWritten.{WhenRead};
ghost use Rattle.coset_codec.specs.Lists.{EachHas};
ghost use Rattle.coset_codec.specs.declared.error.CoseError.{CoseError};
ghost use Rattle.coset_core.specs.HeaderMap.{header_map};
ghost use Rattle.coset_core.specs.Headers.{HeaderView, LAYERS, header, signatures_within};
ghost use Rattle.coset_recipient.specs.Recipient.{each_of, recipient};
ghost use Rattle.example_uses.specs.Inside.{IsDescribed};

use coset_core::laws::headers_hold_signatures;
use coset_recipient::laws::recipients_hold_recipients;

/// Every recipient inside a recipient that was read is described by an item. So the laws of
/// recipients that were read hold for it too.
pub fn recipients_inside()
    ensures { WhenRead recipient (λ r. EachHas (IsDescribed recipient) (each_of r.recipients)) }
{
    recipients_hold_recipients();
}

/// The shape of a header is the map of its fields, with the signatures within 16 layers in it.
pub fn header_is_a_map()
    ensures describes { (v : Item) (h : HeaderView) → header.describes v h
        ↔ (header_map (signatures_within LAYERS)).describes v h }
    ensures image { (h : HeaderView) → header.image h
        ≡ (header_map (signatures_within LAYERS)).image h }
    ensures faults { (v : Item) (e : CoseError) → header.faults v e
        ↔ (header_map (signatures_within LAYERS)).faults v e }
{
    headers_hold_signatures();
}
