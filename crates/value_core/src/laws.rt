// Laws of the texts of values.
ghost use Rattle.value_core.specs.laws.Texts.{OneValueAKey, OneDecimal, DecimalsReadBack, NaturalsByFunction, IntegersByFunction, DecimalsByFunction, KeysByFunction};

/// A text is the key of one value of a shape at most, so that a key text that is read gives the value it was written from.
pub fn one_value_a_key()
    ensures { OneValueAKey }
{}

/// Octets spell one decimal at most.
pub fn one_decimal()
    ensures { OneDecimal }
{}

/// A decimal that is written is read as itself.
pub fn decimals_read_back()
    ensures { DecimalsReadBack }
{}

/// The functions `natural_of`, `integer_of`, `decimal_of` and `key_value` give just the values whose texts the texts are.
pub fn functions_give_what_is_spelled()
    ensures naturals { NaturalsByFunction }
    ensures integers { IntegersByFunction }
    ensures decimals { DecimalsByFunction }
    ensures keys { KeysByFunction }
{}
