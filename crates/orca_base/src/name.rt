ghost use Rattle.std.specs.Prelude.{◌≡◌};
ghost use Rattle.std.specs.List.{list_all};
ghost use Rattle.orca_base.specs.Name.{begins_name, continues_name, has_name_form};

/// Whether the text is a letter or `_`, followed by letters, digits and `_`.
pub fn is_name(text: &str) -> bool
    ensures { result ≡ has_name_form text.now }
{
    match text.as_bytes().split_first() {
        Some((first, others)) => may_begin_name(*first) && may_go_on(others),
        None => false,
    }
}

fn may_begin_name(byte: u8) -> bool
    ensures { result ≡ begins_name byte }
{
    byte.is_ascii_alphabetic() || byte == b'_'
}

fn may_go_on(bytes: &[u8]) -> bool
    ensures { result ≡ list_all continues_name bytes.now }
{
    bytes
        .iter()
        .all(|byte| byte.is_ascii_alphanumeric() || *byte == b'_')
}
