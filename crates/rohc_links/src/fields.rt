//! Reading the values in the tables of a links file.

ghost use Rattle.std.specs.Prelude.{◌≡◌, Option, map, option_map};
ghost use Rattle.toml.specs.Data.{Data, get_member};
ghost use Rattle.toml.specs.View.{view, table_view};
ghost use Rattle.rohc_links.specs.Fields.{whole_number, size, mode, field_at, required_field, optional_field, is_among, has_only};

use crate::fault::Key;
use rohc_context::Mode;
use rohc_frame::CidKind;
use toml::{Table, Value};

/// A type that the value of a key can have.
pub trait Field: Sized {
    ghost field_of: { Data → Option Self };

    /// The value as this type, if it is of this type and fits.
    fn read(value: &Value) -> Option<Self>
        ensures { result ≡ field_of (view value.now) };
}

impl Field for u8 {
    ghost field_of = { whole_number 0 255 };

    fn read(value: &Value) -> Option<u8> {
        u8::try_from(value.as_integer()?).ok()
    }
}

impl Field for u16 {
    ghost field_of = { whole_number 0 65535 };

    fn read(value: &Value) -> Option<u16> {
        u16::try_from(value.as_integer()?).ok()
    }
}

impl Field for u32 {
    ghost field_of = { whole_number 0 4294967295 };

    fn read(value: &Value) -> Option<u32> {
        u32::try_from(value.as_integer()?).ok()
    }
}

impl Field for CidKind {
    ghost field_of = { size };

    fn read(value: &Value) -> Option<CidKind> {
        match value.as_str()? {
            "small" => Some(CidKind::Small),
            "large" => Some(CidKind::Large),
            _ => None,
        }
    }
}

impl Field for Mode {
    ghost field_of = { mode };

    fn read(value: &Value) -> Option<Mode> {
        match value.as_str()? {
            "U" => Some(Mode::U),
            "O" => Some(Mode::O),
            _ => None,
        }
    }
}

/// The value at the key, if there is one.
pub(crate) fn value_at<'a>(table: &'a Table, name: &str) -> Option<&'a Value>
    ensures { option_map (λ v. view v.now) result ≡ get_member name.now (table_view table.now) }
{
    table.get(name)
}

/// The value at the key, if it is there and of the type.
pub fn field_at<T: Field>(table: &Table, name: &str) -> Option<T>
    ensures { result ≡ field_at T.field_of name.now (table_view table.now) }
{
    match value_at(table, name) {
        Some(value) => T::read(value),
        None => None,
    }
}

/// The value at the key, else the key, which is missing or wrong.
pub(crate) fn required_field<T: Field>(table: &Table, key: Key) -> Result<T, Key>
    ensures { result ≡ required_field T.field_of key (table_view table.now) }
{
    field_at(table, key.name()).ok_or(key)
}

/// The value at the key if the table has the key, else the key, which is wrong.
pub(crate) fn optional_field<T: Field>(table: &Table, key: Key) -> Result<Option<T>, Key>
    ensures { result ≡ optional_field T.field_of key (table_view table.now) }
{
    match value_at(table, key.name()) {
        Some(value) => match T::read(value) {
            Some(read) => Ok(Some(read)),
            None => Err(key),
        },
        None => Ok(None),
    }
}

/// Whether all keys of the table are among these.
pub(crate) fn has_only(table: &Table, names: &[&str]) -> bool
    ensures { result ≡ has_only (map (λ s. s.now) names.now) (table_view table.now) }
{
    for (name, _) in table {
        if !is_among(name.as_str(), names) {
            return false;
        }
    }
    true
}

/// Whether the name is one of these.
pub(crate) fn is_among(name: &str, names: &[&str]) -> bool
    ensures { result ≡ is_among (map (λ s. s.now) names.now) name.now }
{
    for known in names {
        if *known == name {
            return true;
        }
    }
    false
}
