//! Bytes that end inside the target of a request.
//! Why so: docs/DECISIONS.md, "Bytes that end inside a target count as cut".
ghost use Rattle.std.specs.Prelude.{◌≡◌, ◌↔◌, IsTrue};
ghost use Rattle.std.specs.List.{list_all};
ghost use Rattle.httparse.specs.Grammar.{EndsInTarget, is_token_byte, is_uri_byte};
ghost use Rattle.registry_http.specs.inner.Reading.{without_blank, without_token, is_space_and_target};

/// A byte of a method.
#[tactic(auto, unfolding(httparse::specs::Grammar::is_token_byte))]
fn is_token_byte(byte: u8) -> bool
    ensures { result ≡ is_token_byte byte }
{
    byte.is_ascii_alphanumeric() || b"!#$%&'*+-.^_`|~".contains(&byte)
}

/// The bytes without the line ends at their front.
fn skip_blank(bytes: &[u8]) -> &[u8]
    ensures { result.now ≡ without_blank bytes.now }
{
    let mut rest = bytes;
    loop {
        match rest {
            [b'\n', behind @ ..] => rest = behind,
            [b'\r', b'\n', behind @ ..] => rest = behind,
            _ => return rest,
        }
    }
}

/// The bytes without those of a method at their front.
fn skip_token(bytes: &[u8]) -> &[u8]
    ensures { result.now ≡ without_token bytes.now }
{
    let mut rest = bytes;
    loop {
        match rest {
            [byte, behind @ ..] if is_token_byte(*byte) => rest = behind,
            _ => return rest,
        }
    }
}

/// Whether each byte may stand in a target: it is visible, or past ASCII.
fn is_uri(bytes: &[u8]) -> bool
    ensures { result ≡ list_all is_uri_byte bytes.now }
{
    for byte in bytes {
        if *byte <= b' ' || *byte == 0x7f {
            return false;
        }
    }
    true
}

/// Whether these bytes are a space and some of a target.
fn is_space_and_target(bytes: &[u8]) -> bool
    ensures { result ≡ is_space_and_target bytes.now }
{
    match bytes {
        [b' ', target @ ..] => is_uri(target),
        _ => false,
    }
}

/// Whether the bytes end inside a target: empty lines, a method, a space, and bytes of a target.
pub(crate) fn ends_in_target(bytes: &[u8]) -> bool
    ensures { IsTrue result ↔ EndsInTarget bytes.now }
{
    let line = skip_blank(bytes);
    let behind = skip_token(line);
    behind.len() < line.len() && is_space_and_target(behind)
}
