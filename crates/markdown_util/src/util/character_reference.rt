//! The text that a name stands for, and which bytes a value has.

ghost use Rattle.std.specs.Prelude.{◌≡◌, IsTrue};
ghost use Rattle.std.specs.Option.{option_copied};
ghost use Rattle.markdown_util.specs.Reference.{html_5_capitals, html_5_a_to_d, html_5_e_to_l, html_5_m_to_r, html_5_s_to_z, html_4_capitals, html_4_a_to_d, html_4_e_to_l, html_4_m_to_r, html_4_s_to_z, known_names, named_value, rows_of, rows_for, rows_named};
ghost use Rattle.markdown_util.specs.Reference.{html_4_rows, html_5_rows, is_sorted, IsReferenceMarker, value_size_max, is_value_byte};
ghost use Rattle.markdown_util.specs.TableParts.{IsTablePart};

use crate::util::constant::{
    CHARACTER_REFERENCE_DECIMAL_SIZE_MAX, CHARACTER_REFERENCE_HEXADECIMAL_SIZE_MAX,
    CHARACTER_REFERENCE_NAMED_SIZE_MAX, HTML_4_A_TO_D, HTML_4_CAPITALS, HTML_4_E_TO_L,
    HTML_4_M_TO_R, HTML_4_S_TO_Z, HTML_5_A_TO_D, HTML_5_CAPITALS, HTML_5_E_TO_L, HTML_5_M_TO_R,
    HTML_5_S_TO_Z,
};
use crate::util::html_lines::html;

/// The tables of named character references.
#[derive(Clone, Copy, Debug, PartialEq, Eq)]
pub enum Names {
    /// The 252 names of HTML 4.
    Html4,
    /// The 294 names of HTML 5 that are shipped: those of HTML 4, two of them with another text,
    /// and 42 more.
    Html5,
    /// All 2,125 names of HTML that end with a `;`. The 294 have the same texts here.
    Html,
}

/// The text that a name stands for, and none where the table does not have the name.
///
/// The name is what stands between `&` and `;`, in its own case. The table is that of HTML 5 as it
/// is shipped, or else that of HTML 4.
pub fn decode_named(value: &str, html5: bool) -> Option<&'static str>
    ensures { option_copied result ≡ named_value (rows_for html5) value.now }
{
    decode_named_in(value, shipped_names(html5))
}

/// The text that a name stands for in a table, and none where the table does not have the name.
///
/// The name is what stands between `&` and `;`, in its own case.
pub fn decode_named_in(value: &str, names: Names) -> Option<&'static str>
    ensures { option_copied result ≡ named_value (rows_named names) value.now }
{
    match names {
        Names::Html4 => text_of(html_4(value), value),
        Names::Html5 => text_of(html_5(value), value),
        Names::Html => html(value),
    }
}

/// The names that a reference may have: all names of HTML, as CommonMark says, or else those of
/// HTML 5 as they are shipped.
pub fn known_names(html: bool) -> Names
    ensures { result ≡ known_names html }
{
    if html { Names::Html } else { Names::Html5 }
}

/// The table of HTML 5 as it is shipped, or else that of HTML 4.
pub(crate) fn shipped_names(html5: bool) -> Names
    ensures { rows_named result ≡ rows_for html5 }
{
    if html5 { Names::Html5 } else { Names::Html4 }
}

/// The most bytes that a value may have, by the marker of its reference: `&`, `#` or `x`.
pub fn value_max(marker: u8) -> usize
    requires { IsReferenceMarker marker }
    ensures { result ≡ value_size_max marker }
{
    match marker {
        b'&' => CHARACTER_REFERENCE_NAMED_SIZE_MAX,
        b'#' => CHARACTER_REFERENCE_DECIMAL_SIZE_MAX,
        b'x' => CHARACTER_REFERENCE_HEXADECIMAL_SIZE_MAX,
        _ => unreachable!(),
    }
}

/// Whether a value may hold a byte, by the marker of its reference: `&`, `#` or `x`.
pub fn value_test(marker: u8, byte: u8) -> bool
    requires { IsReferenceMarker marker }
    ensures { result ≡ is_value_byte marker byte }
{
    match marker {
        b'&' => byte.is_ascii_alphanumeric(),
        b'#' => byte.is_ascii_digit(),
        b'x' => byte.is_ascii_hexdigit(),
        _ => unreachable!(),
    }
}

/// The text in the line with this name, of lines in the order of their names.
fn text_of(rows: &'static [(&'static str, &'static str)], name: &str) -> Option<&'static str>
    requires { IsTrue (is_sorted (rows_of rows.now)) }
    ensures { option_copied result ≡ named_value (rows_of rows.now) name.now }
{
    match rows.binary_search_by(|row| row.0.cmp(name)) {
        Ok(at) => Some(rows[at].1),
        Err(_) => None,
    }
}

/// The lines of HTML 5 among which a name would stand.
fn html_5(name: &str) -> &'static [(&'static str, &'static str)]
    ensures { IsTablePart html_5_rows (rows_of result.now) name.now }
{
    if name < "a" {
        html_5_capitals()
    } else if name < "e" {
        html_5_a_to_d()
    } else if name < "m" {
        html_5_e_to_l()
    } else if name < "s" {
        html_5_m_to_r()
    } else {
        html_5_s_to_z()
    }
}

#[tactic(auto, unfolding(crate::specs::Reference::html_5_capitals))]
fn html_5_capitals() -> &'static [(&'static str, &'static str)]
    ensures { rows_of result.now ≡ html_5_capitals }
{
    &HTML_5_CAPITALS
}

#[tactic(auto, unfolding(crate::specs::Reference::html_5_a_to_d))]
fn html_5_a_to_d() -> &'static [(&'static str, &'static str)]
    ensures { rows_of result.now ≡ html_5_a_to_d }
{
    &HTML_5_A_TO_D
}

#[tactic(auto, unfolding(crate::specs::Reference::html_5_e_to_l))]
fn html_5_e_to_l() -> &'static [(&'static str, &'static str)]
    ensures { rows_of result.now ≡ html_5_e_to_l }
{
    &HTML_5_E_TO_L
}

#[tactic(auto, unfolding(crate::specs::Reference::html_5_m_to_r))]
fn html_5_m_to_r() -> &'static [(&'static str, &'static str)]
    ensures { rows_of result.now ≡ html_5_m_to_r }
{
    &HTML_5_M_TO_R
}

#[tactic(auto, unfolding(crate::specs::Reference::html_5_s_to_z))]
fn html_5_s_to_z() -> &'static [(&'static str, &'static str)]
    ensures { rows_of result.now ≡ html_5_s_to_z }
{
    &HTML_5_S_TO_Z
}

/// The lines of HTML 4 among which a name would stand.
fn html_4(name: &str) -> &'static [(&'static str, &'static str)]
    ensures { IsTablePart html_4_rows (rows_of result.now) name.now }
{
    if name < "a" {
        html_4_capitals()
    } else if name < "e" {
        html_4_a_to_d()
    } else if name < "m" {
        html_4_e_to_l()
    } else if name < "s" {
        html_4_m_to_r()
    } else {
        html_4_s_to_z()
    }
}

#[tactic(auto, unfolding(crate::specs::Reference::html_4_capitals))]
fn html_4_capitals() -> &'static [(&'static str, &'static str)]
    ensures { rows_of result.now ≡ html_4_capitals }
{
    &HTML_4_CAPITALS
}

#[tactic(auto, unfolding(crate::specs::Reference::html_4_a_to_d))]
fn html_4_a_to_d() -> &'static [(&'static str, &'static str)]
    ensures { rows_of result.now ≡ html_4_a_to_d }
{
    &HTML_4_A_TO_D
}

#[tactic(auto, unfolding(crate::specs::Reference::html_4_e_to_l))]
fn html_4_e_to_l() -> &'static [(&'static str, &'static str)]
    ensures { rows_of result.now ≡ html_4_e_to_l }
{
    &HTML_4_E_TO_L
}

#[tactic(auto, unfolding(crate::specs::Reference::html_4_m_to_r))]
fn html_4_m_to_r() -> &'static [(&'static str, &'static str)]
    ensures { rows_of result.now ≡ html_4_m_to_r }
{
    &HTML_4_M_TO_R
}

#[tactic(auto, unfolding(crate::specs::Reference::html_4_s_to_z))]
fn html_4_s_to_z() -> &'static [(&'static str, &'static str)]
    ensures { rows_of result.now ≡ html_4_s_to_z }
{
    &HTML_4_S_TO_Z
}
