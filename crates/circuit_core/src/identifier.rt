//! Whether bytes are the name of a register or a gate.

ghost use Rattle.std.specs.Prelude.{◌≡◌};
ghost use Rattle.std.specs.List.{list_all, list_any};
ghost use Rattle.std.specs.Str.{bytes_eq};
ghost use Rattle.circuit_core.specs.Identifier.{is_identifier, is_word_byte, reserved_words};

// Whether a byte may be in a name after its first.
fn is_word_byte(byte: u8) -> bool
    ensures { result ≡ is_word_byte byte }
{
    byte.is_ascii_lowercase() || byte.is_ascii_uppercase() || byte.is_ascii_digit() || byte == b'_'
}

fn is_word(bytes: &[u8]) -> bool
    ensures { result ≡ list_all is_word_byte bytes.now }
{
    bytes.iter().all(|byte| is_word_byte(*byte))
}

fn is_reserved(word: &[u8]) -> bool
    ensures { result ≡ list_any (bytes_eq word.now) reserved_words }
{
    word == b"include".as_slice()
        || word == b"qreg".as_slice()
        || word == b"creg".as_slice()
        || word == b"gate".as_slice()
        || word == b"opaque".as_slice()
        || word == b"measure".as_slice()
        || word == b"reset".as_slice()
        || word == b"barrier".as_slice()
        || word == b"if".as_slice()
        || word == b"pi".as_slice()
        || word == b"sin".as_slice()
        || word == b"cos".as_slice()
        || word == b"tan".as_slice()
        || word == b"exp".as_slice()
        || word == b"ln".as_slice()
        || word == b"sqrt".as_slice()
}

/// Whether the bytes are the name of a register or a gate. It takes no memory.
pub fn is_identifier(name: &[u8]) -> bool
    ensures { result ≡ is_identifier name.now }
{
    let Some((first, rest)) = name.split_first() else {
        return false;
    };
    if !first.is_ascii_lowercase() || !is_word(rest) {
        return false;
    }
    rest.len() <= 63 && !is_reserved(name)
}
