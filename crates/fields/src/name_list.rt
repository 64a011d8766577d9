// The names that are declared, by what they name.
ghost use Rattle.std.specs.Prelude.{◌≡◌, ◌≤◌, length};
ghost use Rattle.fields.specs.Fields.{number_of};

use crate::fault::Cause;
use names::Name;
use ordered::find_last;

// At most 64 names, numbered from 0 in the order of their declaration.
#[derive(Clone, Copy)]
pub struct NameList<'a> {
    pub names: &'a [Name],
    ghost few: { length names.now ≤ 64 },
}

// The names that an order may use.
#[derive(Clone, Copy)]
pub struct Declared<'a> {
    pub tags: NameList<'a>,
    pub points: NameList<'a>,
}

impl NameList<'_> {
    // A name's number, or that it is not declared.
    pub(crate) fn find(&self, wanted: &[u8]) -> Result<u8, Cause>
        ensures { result ≡ number_of self.now.names.now wanted.now }
    {
        find_last(self.names, Name::of(wanted))
            .map(|n| n as u8)
            .ok_or(Cause::Undeclared)
    }
}
