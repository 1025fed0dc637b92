//! The name field of a record: 32 units, the name's and then nulls.
ghost use Rattle.std.specs.Prelude.{◌≡◌, ◌≤◌, IfOk};
ghost use Rattle.records.specs.Bytes.{part, units_of};
ghost use Rattle.records.specs.Rules.{judge, root_units, title_rules, titled};
ghost use Rattle.records.specs.Steps.{count_step, name_steps};
ghost use Rattle.records.specs.Writing.{name_bytes};

use crate::bytes::{part, put};
use crate::reading::Reader;
use fields::consts;
use fields::malformed::Flaw;
use fields::objtype::ObjType;
use names::name::{Name, is_allowed};
use names::utf16::is_well_formed;
use std::array;

/// The root's own name.
pub fn root_name() -> Name
    ensures { result ≡ root_units }
{
    Name::new(&consts::ROOT_DIR_NAME).unwrap()
}

impl Reader<'_> {
    /// How many units the name has, before its null.
    fn name_len(&self) -> Result<usize, Flaw>
        ensures value { result ≡ count_step self.now.bytes.now self.now.validation }
        ensures few { IfOk result (λ n. n ≤ 31) }
    {
        let len = u16::from_le_bytes(part(self.bytes, consts::NAME_LEN_OFFSET));
        if usize::from(len) > consts::NAME_FIELD_LEN {
            return Err(Flaw::LongName);
        }
        if len % 2 != 0 {
            return Err(Flaw::OddName);
        }
        // A length of 0 counts no null, and stands for an empty name all the same.
        let count = (usize::from(len) / 2).saturating_sub(1);
        let end = u16::from_le_bytes(part(self.bytes, 2 * count));
        if self.validation.is_strict() && end != 0 {
            Err(Flaw::NoNull)
        } else {
            Ok(count)
        }
    }

    /// The 32 units of the name field.
    fn units(&self) -> [u16; consts::NAME_FIELD_UNITS]
        ensures { result ≡ units_of (part 0 64 self.now.bytes.now) }
    {
        let field: [u8; consts::NAME_FIELD_LEN] = part(self.bytes, consts::NAME_OFFSET);
        let (pairs, _) = field.as_chunks();
        array::from_fn(|i| u16::from_le_bytes(pairs[i]))
    }

    /// The name, as the record has it.
    pub fn name(&self) -> Result<Name, Flaw>
        ensures { result ≡ name_steps self.now.bytes.now self.now.validation }
    {
        let count = self.name_len()?;
        let field = self.units();
        let units = &field[..count];
        if is_well_formed(units) {
            Ok(Name::new(units).unwrap())
        } else {
            Err(Flaw::BadUtf16)
        }
    }

    /// The name of an entry of a type: the root's is given, and any other has no forbidden unit.
    pub fn title(&self, name: Name, obj_type: ObjType) -> Result<Name, Flaw>
        ensures { result ≡ judge (title_rules obj_type name self.now.validation) (titled obj_type name) }
    {
        let units = name.units();
        if obj_type.is_root() {
            if self.validation.is_strict() && units != consts::ROOT_DIR_NAME.as_slice() {
                return Err(Flaw::RootName);
            }
            Ok(root_name())
        } else if is_allowed(units) {
            Ok(name)
        } else {
            Err(Flaw::ForbiddenUnit)
        }
    }
}

/// The name field of a name.
pub fn name_field(name: &Name) -> [u8; consts::NAME_FIELD_LEN]
    ensures { result ≡ name_bytes name.now }
{
    let mut field = [0; consts::NAME_FIELD_LEN];
    // By their places: what is written through chunks is not known afterwards.
    for (i, unit) in name.units().iter().enumerate() {
        put(&mut field, 2 * i, &unit.to_le_bytes());
    }
    field
}
