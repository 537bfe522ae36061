//! The table of numeric steps, whose fields are all numbers.

/// The table of numeric steps. A row gives a step's opcode and its fields in order: `one`, `two` or
/// `four` bytes, which text spells in hexadecimal, or `dots`, which it spells in decimal.
#[macro_export]
macro_rules! numeric_steps {
    ($then:ident, $first:ident, $second:ident) => {
        $then! {
            $first, $second,
            OUT => Out { port: two, value: one },
            OUT_WORD => OutWord { port: two, value: two },
            IN => In { port: two },
            IN_WORD => InWord { port: two },
            PUT => Put { address: four, value: one },
            PUT_WORD => PutWord { address: four, value: two },
            GET => Get { address: four },
            GET_WORD => GetWord { address: four },
            ADVANCE => Advance { dots: dots },
        }
    };
}

pub(crate) use numeric_steps;
