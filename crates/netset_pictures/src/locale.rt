//! The marks of a bar: by the choice of the user, the terminal, and the name of the locale.
ghost use Rattle.std.specs.Prelude.{◌≡◌, ◌↔◌, IsTrue};
ghost use Rattle.ipnet_bars.specs.declared.marks.Marks.TheVariants.{Ascii, Utf8};
ghost use Rattle.netset_pictures.specs.Locales.{codeset_of, IsUtf8Locale, filled_or, locale_name};
ghost use Rattle.netset_pictures.specs.declared.locale.MarkChoice.TheVariants as Choices;

use ipnet_bars::Marks;

/// The choice of the marks of a bar.
#[derive(Clone, Copy, Debug, PartialEq, Eq)]
pub enum MarkChoice {
    /// `--ascii`
    Ascii,
    /// `--utf8`
    Utf8,
    /// Neither flag, and the output is a terminal.
    Terminal,
    /// Neither flag, and the output is not a terminal.
    File,
}

/// The codeset in the name of the locale.
fn codeset(locale: &str) -> &str
    ensures { result.now ≡ codeset_of locale.now }
{
    let rest = match locale.split_once('.') {
        Some((_, rest)) => rest,
        None => "",
    };
    match rest.split_once('@') {
        Some((codeset, _)) => codeset,
        None => rest,
    }
}

/// Returns whether the name of a locale says that its text is in UTF-8.
///
/// ```text
/// "C.UTF-8" and "de_DE.utf8@euro" do; "C", "de_DE.ISO-8859-1" and "" do not
/// ```
pub fn is_utf8_locale(locale: &str) -> bool
    ensures { IsTrue result ↔ IsUtf8Locale locale.now }
{
    let codeset = codeset(locale);
    codeset.eq_ignore_ascii_case("utf-8") || codeset.eq_ignore_ascii_case("utf8")
}

/// The values of the variables that name the locale. A value is empty if the variable is not set.
#[derive(Clone, Copy, Debug)]
pub struct LocaleValues<'a> {
    /// The value of `LC_ALL`.
    pub lc_all: &'a str,
    /// The value of `LC_CTYPE`.
    pub lc_ctype: &'a str,
    /// The value of `LANG`.
    pub lang: &'a str,
}

/// The first text, or the other if the first is empty.
fn filled<'a>(first: &'a str, other: &'a str) -> &'a str
    ensures { result.now ≡ filled_or first.now other.now }
{
    if first.is_empty() { other } else { first }
}

/// The name of the locale.
fn name_of<'a>(values: LocaleValues<'a>) -> &'a str
    ensures { let v = values.entry in result.now ≡ locale_name v.lc_all.now v.lc_ctype.now v.lang.now }
{
    filled(values.lc_all, filled(values.lc_ctype, values.lang))
}

/// Whether the values name a locale whose text is in UTF-8.
fn are_utf8(values: LocaleValues<'_>) -> bool
    ensures { let v = values.entry in
        IsTrue result ↔ IsUtf8Locale (locale_name v.lc_all.now v.lc_ctype.now v.lang.now) }
{
    is_utf8_locale(name_of(values))
}

/// Returns the marks of a bar. On a terminal, the locale decides: its name is the first of the values of `LC_ALL`,
/// `LC_CTYPE` and `LANG` that is not empty.
///
/// ```text
/// Terminal with "", "C.UTF-8", "C": Utf8; Terminal with "C", "", "C.UTF-8": Ascii; File: Ascii
/// ```
pub fn chosen_marks(choice: MarkChoice, values: LocaleValues<'_>) -> Marks
    ensures ascii { choice ≡ Choices.Ascii → result ≡ Ascii }
    ensures utf8 { choice ≡ Choices.Utf8 → result ≡ Utf8 }
    ensures file { choice ≡ Choices.File → result ≡ Ascii }
    ensures terminal { let v = values.entry in
        choice ≡ Choices.Terminal
        → (result ≡ Utf8) ↔ IsUtf8Locale (locale_name v.lc_all.now v.lc_ctype.now v.lang.now) }
{
    match choice {
        MarkChoice::Ascii | MarkChoice::File => Marks::Ascii,
        MarkChoice::Utf8 => Marks::Utf8,
        MarkChoice::Terminal if are_utf8(values) => Marks::Utf8,
        MarkChoice::Terminal => Marks::Ascii,
    }
}
