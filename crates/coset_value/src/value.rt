//! CBOR values (RFC 8949, section 2).

ghost use Rattle.std.specs.Prelude.{◌≡◌, ◌↔◌, IsTrue, IfOk, option_map, pos};
ghost use Rattle.std.specs.Ordering.{on};
ghost use Rattle.std.specs.Cmp.{on_equiv, on_per, partial_equiv_from_equiv};
ghost use Rattle.coset_value.specs.Item.{integer, null};
ghost use Rattle.coset_value.specs.Parts.{as_integer, as_bytes, as_text, as_bool, as_array, as_map, as_tag};
ghost use Rattle.coset_value.specs.Same.{item_eq, items_eq, pairs_eq};
ghost use Rattle.coset_value.specs.SameLaws.{item_eq_equiv};
ghost use Rattle.coset_value.specs.View.{value_item, value_items, value_pairs};

use crate::float::Float;
use crate::integer::Integer;
use std::alloc::AllocError;

/// A CBOR value (RFC 8949, sections 2 and 3.1).
///
/// Rust's fixed-width integer types of up to 64 bits convert to a `Value` with `From`. The only
/// simple values are `false`, `true` and `null`. Tags 2 and 3 stay tags and do not become integers.
///
/// Copying, comparing and dropping a value recurse once for each level of nesting.
#[derive(Debug, Drop)]
pub enum Value {
    /// An integer from -2^64 to 2^64 - 1 (major types 0 and 1).
    Integer(Integer),
    /// A byte string (major type 2).
    Bytes(Vec<u8>),
    /// A float, as its width and bits (major type 7).
    Float(Float),
    /// A text string (major type 3).
    Text(String),
    /// One of the simple values `false` and `true` (major type 7).
    Bool(bool),
    /// The simple value `null` (major type 7).
    Null,
    /// A tag: its number and the enclosed value (major type 6).
    Tag(u64, Box<Value>),
    /// The elements of an array, in order (major type 4).
    Array(Vec<Value>),
    /// The key and value pairs of a map, in order (major type 5). A key may repeat.
    Map(Vec<(Value, Value)>),
}

impl Value {
    /// Returns the integer, or `None` for any other value (RFC 8949, section 3.1).
    pub fn as_integer(&self) -> Option<Integer>
        ensures { result ≡ as_integer (value_item self.now) }
    {
        match self {
            Value::Integer(n) => Some(*n),
            _ => None,
        }
    }

    /// Returns the bytes of a byte string, or `None` for any other value (RFC 8949, section 3.1).
    pub fn as_bytes(&self) -> Option<&Vec<u8>>
        ensures { option_map (λ bytes. bytes.now.items) result ≡ as_bytes (value_item self.now) }
    {
        match self {
            Value::Bytes(bytes) => Some(bytes),
            _ => None,
        }
    }

    /// Returns the text of a text string, or `None` for any other value (RFC 8949, section 3.1).
    pub fn as_text(&self) -> Option<&str>
        ensures { option_map (λ text. text.now) result ≡ as_text (value_item self.now) }
    {
        match self {
            Value::Text(text) => Some(text.as_str()),
            _ => None,
        }
    }

    /// Returns the boolean, or `None` for any other value (RFC 8949, section 3.3).
    pub fn as_bool(&self) -> Option<bool>
        ensures { result ≡ as_bool (value_item self.now) }
    {
        match self {
            Value::Bool(b) => Some(*b),
            _ => None,
        }
    }

    /// Returns the elements of an array in order, or `None` for any other value (RFC 8949, section
    /// 3.1).
    pub fn as_array(&self) -> Option<&Vec<Value>>
        ensures { option_map (λ items. value_items items.now.items) result
            ≡ as_array (value_item self.now) }
    {
        match self {
            Value::Array(items) => Some(items),
            _ => None,
        }
    }

    /// Returns the pairs of a map in order, or `None` for any other value (RFC 8949, section 3.1).
    pub fn as_map(&self) -> Option<&Vec<(Value, Value)>>
        ensures { option_map (λ pairs. value_pairs pairs.now.items) result
            ≡ as_map (value_item self.now) }
    {
        match self {
            Value::Map(pairs) => Some(pairs),
            _ => None,
        }
    }

    /// Returns the number of a tag and the enclosed value, or `None` for any other value (RFC 8949,
    /// section 3.4).
    pub fn as_tag(&self) -> Option<(u64, &Value)>
        ensures { option_map (λ tag. (tag.0, value_item tag.1.now)) result ≡ as_tag
            (value_item self.now) }
    {
        match self {
            Value::Tag(number, value) => Some((*number, value)),
            _ => None,
        }
    }

    /// Returns true if this is `null` (RFC 8949, section 3.3).
    pub fn is_null(&self) -> bool
        ensures { IsTrue result ↔ (value_item self.now ≡ null) }
    {
        matches!(self, Value::Null)
    }

    /// Returns an equal value in memory of its own.
    ///
    /// # Errors
    /// `AllocError` if an allocation fails.
    pub fn clone(&self) -> Result<Value, AllocError>
        ensures { IfOk result (λ copy. value_item copy ≡ value_item self.now) }
    {
        copy(self)
    }
}

impl From<u8> for Value {
    ghost from_gives = { λ n v. value_item v ≡ integer (pos n) };

    fn from(n: u8) -> Value {
        Value::Integer(Integer::from(n))
    }
}

impl From<u16> for Value {
    ghost from_gives = { λ n v. value_item v ≡ integer (pos n) };

    fn from(n: u16) -> Value {
        Value::Integer(Integer::from(n))
    }
}

impl From<u32> for Value {
    ghost from_gives = { λ n v. value_item v ≡ integer (pos n) };

    fn from(n: u32) -> Value {
        Value::Integer(Integer::from(n))
    }
}

impl From<u64> for Value {
    ghost from_gives = { λ n v. value_item v ≡ integer (pos n) };

    fn from(n: u64) -> Value {
        Value::Integer(Integer::from(n))
    }
}

impl From<i8> for Value {
    ghost from_gives = { λ n v. value_item v ≡ integer n };

    fn from(n: i8) -> Value {
        Value::Integer(Integer::from(n))
    }
}

impl From<i16> for Value {
    ghost from_gives = { λ n v. value_item v ≡ integer n };

    fn from(n: i16) -> Value {
        Value::Integer(Integer::from(n))
    }
}

impl From<i32> for Value {
    ghost from_gives = { λ n v. value_item v ≡ integer n };

    fn from(n: i32) -> Value {
        Value::Integer(Integer::from(n))
    }
}

impl From<i64> for Value {
    ghost from_gives = { λ n v. value_item v ≡ integer n };

    fn from(n: i64) -> Value {
        Value::Integer(Integer::from(n))
    }
}

impl Clone for Value {
    ghost is_clone = { λ value copy. value_item copy ≡ value_item value };

    fn clone(&self) -> Result<Value, AllocError> {
        copy(self)
    }
}

#[cycle(copy)]
fn copy(value: &Value) -> Result<Value, AllocError>
    ensures { IfOk result (λ copy. value_item copy ≡ value_item value.now) }
{
    match value {
        Value::Integer(n) => Ok(Value::Integer(*n)),
        Value::Bytes(bytes) => Ok(Value::Bytes(Vec::from_slice(*bytes.allocator(), bytes)?)),
        Value::Float(x) => Ok(Value::Float(*x)),
        Value::Text(text) => Ok(Value::Text(text.clone()?)),
        Value::Bool(b) => Ok(Value::Bool(*b)),
        Value::Null => Ok(Value::Null),
        Value::Tag(number, value) => {
            let inside = copy(value)?;
            Ok(Value::Tag(*number, Box::new(*Box::allocator(value), inside)?))
        }
        Value::Array(items) => Ok(Value::Array(copy_items(items)?)),
        Value::Map(pairs) => Ok(Value::Map(copy_pairs(pairs)?)),
    }
}

#[cycle(copy)]
fn copy_items(items: &Vec<Value>) -> Result<Vec<Value>, AllocError>
    ensures { IfOk result (λ copies. value_items copies.items ≡ value_items items.now.items) }
{
    let mut copies = Vec::with_capacity(*items.allocator(), items.len())?;
    for item in items {
        copies.push(copy(item)?)?;
    }
    Ok(copies)
}

#[cycle(copy)]
fn copy_pairs(pairs: &Vec<(Value, Value)>) -> Result<Vec<(Value, Value)>, AllocError>
    ensures { IfOk result (λ copies. value_pairs copies.items ≡ value_pairs pairs.now.items) }
{
    let mut copies = Vec::with_capacity(*pairs.allocator(), pairs.len())?;
    for (key, value) in pairs {
        let key = copy(key)?;
        let value = copy(value)?;
        copies.push((key, value))?;
    }
    Ok(copies)
}

/// Compares all fields. Two floats are equal if their widths and bits are equal. Two maps are equal
/// if they have equal pairs in the same order.
impl PartialEq for Value {
    ghost eq = { on value_item item_eq };

    ghost laws = { on_per value_item (partial_equiv_from_equiv item_eq_equiv) };

    fn eq(&self, other: &Value) -> bool
        ensures answers { result ≡ item_eq (value_item self.now) (value_item other.now) }
        ensures equal { IsTrue result ↔ (value_item self.now ≡ value_item other.now) }
    {
        same(self, other)
    }
}

impl Eq for Value {
    ghost laws = { on_equiv value_item item_eq_equiv };
}

#[cycle(same)]
fn same(a: &Value, b: &Value) -> bool
    ensures { result ≡ item_eq (value_item a.now) (value_item b.now) }
{
    match (a, b) {
        (Value::Integer(m), Value::Integer(n)) => *m == *n,
        (Value::Bytes(s), Value::Bytes(t)) => s.as_slice() == t.as_slice(),
        (Value::Float(x), Value::Float(y)) => *x == *y,
        (Value::Text(s), Value::Text(t)) => s.as_str() == t.as_str(),
        (Value::Bool(x), Value::Bool(y)) => *x == *y,
        (Value::Null, Value::Null) => true,
        (Value::Tag(t, v), Value::Tag(u, w)) => *t == *u && same(v, w),
        (Value::Array(vs), Value::Array(ws)) => same_items(vs, ws),
        (Value::Map(ps), Value::Map(qs)) => same_pairs(ps, qs),
        _ => false,
    }
}

#[cycle(same)]
fn same_items(vs: &[Value], ws: &[Value]) -> bool
    ensures { result ≡ items_eq (value_items vs.now) (value_items ws.now) }
{
    if vs.len() != ws.len() {
        return false;
    }
    for (v, w) in vs.iter().zip(ws) {
        if !same(v, w) {
            return false;
        }
    }
    true
}

#[cycle(same)]
fn same_pairs(ps: &[(Value, Value)], qs: &[(Value, Value)]) -> bool
    ensures { result ≡ pairs_eq (value_pairs ps.now) (value_pairs qs.now) }
{
    if ps.len() != qs.len() {
        return false;
    }
    for ((j, v), (k, w)) in ps.iter().zip(qs) {
        if !(same(j, k) && same(v, w)) {
            return false;
        }
    }
    true
}
