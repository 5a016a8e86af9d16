//! Schemes of addresses.
#![tactic(auto)]

ghost use Rattle.std.specs.Prelude.{◌≡◌, ◌≤◌, length, option_map};
ghost use Rattle.std.specs.List.{prefix_len};
ghost use Rattle.markdown_html_model.specs.Schemes.{begins_with_colon, goes_on_scheme, scheme_of, is_scheme, is_safe, link_schemes, image_schemes};

// Whether what may be a scheme goes on with this byte.
fn goes_on_scheme(byte: u8) -> bool
    ensures { result ≡ goes_on_scheme byte }
{
    !matches!(byte, b':' | b'/' | b'?' | b'#')
}

// How many bytes of what may be a scheme stand first.
#[tactic(auto, using(crate::proofs::ReferenceValues::prefix_within))]
fn scheme_len(address: &[u8]) -> usize
    ensures len { result ≡ prefix_len goes_on_scheme address.now }
    ensures within { result ≤ length address.now }
{
    address
        .iter()
        .take_while(|byte| goes_on_scheme(**byte))
        .count()
}

fn begins_with_colon(bytes: &[u8]) -> bool
    ensures { result ≡ begins_with_colon bytes.now }
{
    matches!(bytes, [b':', ..])
}

// What stands before the first colon; none where no colon stands, or one of `/`, `?` and `#` before it.
#[tactic(auto, unfolding(crate::specs::Schemes::scheme_of))]
fn scheme_of(address: &[u8]) -> Option<&[u8]>
    ensures { option_map (λ s. s.now) result ≡ scheme_of address.now }
{
    let (front, back) = address.split_at(scheme_len(address));
    if begins_with_colon(back) {
        Some(front)
    } else {
        None
    }
}

// Whether the two are equal in all but case.
fn is_scheme(name: &[u8], scheme: &[u8]) -> bool
    ensures { result ≡ is_scheme name.now scheme.now }
{
    name.eq_ignore_ascii_case(scheme)
}

/// Whether a link to this address leads to nothing that runs: it has no scheme, or one of `http`, `https`, `irc`, `ircs`, `mailto` and `xmpp`,
/// in any case.
#[tactic(auto, unfolding(crate::specs::Schemes::is_safe))]
pub fn is_safe_link(address: &[u8]) -> bool
    ensures { result ≡ is_safe link_schemes address.now }
{
    match scheme_of(address) {
        Some(scheme) => {
            is_scheme(b"http", scheme)
                || is_scheme(b"https", scheme)
                || is_scheme(b"irc", scheme)
                || is_scheme(b"ircs", scheme)
                || is_scheme(b"mailto", scheme)
                || is_scheme(b"xmpp", scheme)
        }
        None => true,
    }
}

/// Whether an image from this address runs nothing: it has no scheme, or one of `http` and `https`, in any case.
#[tactic(auto, unfolding(crate::specs::Schemes::is_safe))]
pub fn is_safe_image(address: &[u8]) -> bool
    ensures { result ≡ is_safe image_schemes address.now }
{
    match scheme_of(address) {
        Some(scheme) => is_scheme(b"http", scheme) || is_scheme(b"https", scheme),
        None => true,
    }
}
