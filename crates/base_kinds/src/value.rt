ghost use Rattle.std.specs.Prelude.{◌≡◌, ◌↔◌, IsTrue};
ghost use Rattle.base_kinds.specs.Values.{is_list, values_in};

use base_lists::{Bytes, Copied, NoMemory, Same, Seq, Text};
use std::alloc::Global;

/// The value of a leaf or a leaf-list (gNMI 2.2.3, RFC 7951 6).
#[derive(PartialEq, Drop)]
pub enum Value {
    Bool(bool),
    Int(i64),
    Uint(u64),
    /// Digits, and how many of them stand behind the decimal point: `Dec(150, 2)` is 1.5.
    Dec(i64, u8),
    Text(Text),
    Bin(Bytes),
    Enum(Text),
    /// The values of a leaf-list, in order.
    List(Values),
}

pub type Values = Seq<Value>;

impl Value {
    /// Whether it is the value of a leaf-list.
    pub fn is_list(&self) -> bool
        ensures { result ≡ is_list self.now }
    {
        matches!(self, Value::List(_))
    }

    /// The values of a leaf-list, in order; a leaf has none.
    pub fn values(&self) -> &[Value]
        ensures { result.now ≡ values_in self.now }
    {
        match self {
            Value::List(values) => values.items(),
            _ => &[],
        }
    }
}

impl Copied for Value {
    fn copy(&self, alloc: Global) -> Result<Value, NoMemory> {
        match self {
            Value::Bool(is) => Ok(Value::Bool(*is)),
            Value::Int(number) => Ok(Value::Int(*number)),
            Value::Uint(number) => Ok(Value::Uint(*number)),
            Value::Dec(digits, places) => Ok(Value::Dec(*digits, *places)),
            Value::Text(text) => Ok(Value::Text(text.copy(alloc)?)),
            Value::Bin(octets) => Ok(Value::Bin(octets.copy(alloc)?)),
            Value::Enum(text) => Ok(Value::Enum(text.copy(alloc)?)),
            Value::List(values) => {
                let mut copies = Seq::empty(alloc);
                for value in values.items() {
                    copies.push(value.copy(alloc)?)?;
                }
                Ok(Value::List(copies))
            }
        }
    }
}

impl Same for Value {
    #[cycle(same)]
    fn same(&self, other: &Value) -> bool {
        match (self, other) {
            (Value::Bool(a), Value::Bool(b)) => a == b,
            (Value::Int(a), Value::Int(b)) => a == b,
            (Value::Uint(a), Value::Uint(b)) => a == b,
            (Value::Dec(a, p), Value::Dec(b, q)) => a == b && p == q,
            (Value::Text(a), Value::Text(b)) => a.same(b),
            (Value::Bin(a), Value::Bin(b)) => a.same(b),
            (Value::Enum(a), Value::Enum(b)) => a.same(b),
            (Value::List(a), Value::List(b)) => same_values(a.items(), b.items()),
            _ => false,
        }
    }
}

#[cycle(same)]
fn same_values(xs: &[Value], ys: &[Value]) -> bool
    ensures { IsTrue result ↔ (xs.now ≡ ys.now) }
{
    if xs.len() != ys.len() {
        return false;
    }
    for (i, x) in xs.iter().enumerate() {
        if !x.same(&ys[i]) {
            return false;
        }
    }
    true
}
