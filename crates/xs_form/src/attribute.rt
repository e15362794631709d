ghost use Rattle.std.specs.Prelude.{◌≡◌, true};
ghost use Rattle.xs_xml_laws.specs.{is_name};

use crate::values::Value;
use xs_class::Sym;

/// An attribute of a tag.
#[derive(Drop)]
pub struct Attribute<'a> {
    pub name: &'a [Sym],
    pub value: Value<'a>,
    ghost named: { is_name name.now ≡ true },
}
