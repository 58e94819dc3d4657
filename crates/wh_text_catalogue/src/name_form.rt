//! Tests the form of a name, of a view or a column.
ghost use Rattle.std.specs.Prelude.{◌≡◌};
ghost use Rattle.std.specs.List.{list_all};
ghost use Rattle.wh_text.specs.NameForm.{begins_name, continues_name, is_name};

const MAX_NAME_LEN: usize = 64;

/// Whether a name may begin with the byte.
fn begins_name(byte: u8) -> bool
    ensures { result ≡ begins_name byte }
{
    byte.is_ascii_alphabetic() || byte == b'_'
}

/// Whether the byte may stand in a name after its first.
fn continues_name(byte: u8) -> bool
    ensures { result ≡ continues_name byte }
{
    byte.is_ascii_alphanumeric() || byte == b'_'
}

/// Whether each of the bytes may.
fn all_continue(bytes: &[u8]) -> bool
    ensures { result ≡ list_all continues_name bytes.now }
{
    bytes.iter().all(|byte| continues_name(*byte))
}

/// Tells whether the text is 1 to 64 bytes: a letter or an underscore, then letters, digits and underscores (ASCII).
#[tactic(auto, unfolding(wh_text::specs::NameForm::is_name))]
pub(crate) fn is_name(text: &str) -> bool
    ensures { result ≡ is_name text.now }
{
    match text.as_bytes() {
        [] => false,
        [first, rest @ ..] => {
            begins_name(*first) && all_continue(rest) && text.len() <= MAX_NAME_LEN
        }
    }
}
