//! The forms of a number field, in parts.
ghost use Rattle.std.specs.Prelude.{◌≡◌, IsTrue};
ghost use Rattle.std.specs.List.{list_all};
ghost use Rattle.std.specs.Char.{is_ascii_digit};

/// The parts of a decimal as they are written: the digits before and after the point, and the exponent.
#[derive(Clone, Copy)]
pub(crate) struct Decimal<'a> {
    pub(crate) negative: bool,
    pub(crate) whole: &'a [u8],
    pub(crate) fraction: &'a [u8],
    pub(crate) exponent_negative: bool,
    pub(crate) exponent: &'a [u8],
    ghost whole_is_digits: { IsTrue (list_all is_ascii_digit whole.now) },
    ghost fraction_is_digits: { IsTrue (list_all is_ascii_digit fraction.now) },
    ghost exponent_is_digits: { IsTrue (list_all is_ascii_digit exponent.now) },
}

/// The form of a field.
#[derive(Clone, Copy)]
pub(crate) enum Form<'a> {
    Nan,
    Infinity { negative: bool },
    /// A whole number by its sign and magnitude: most fields.
    Plain { negative: bool, size: u64 },
    General(Decimal<'a>),
}
