ghost use Rattle.std.specs.Prelude.{◌≡◌, ◌+◌, min, if◌then◌else◌};

use std::fmt;

/// A count that stays at the highest number.
#[derive(Clone, Copy, Default)]
pub struct Count(u32);

impl Count {
    pub fn add(&mut self, number: u32)
        ensures { self.new.0 ≡ min (self.old.0 + number) 0xffff_ffff }
    {
        self.0 = self.0.saturating_add(number);
    }

    pub fn add_if(&mut self, holds: bool)
        ensures { self.new.0 ≡ min (self.old.0 + (if holds then 1 else 0)) 0xffff_ffff }
    {
        self.add(u32::from(holds));
    }

    pub fn value(&self) -> u32
        ensures { result ≡ self.now.0 }
    {
        let Count(number) = *self;
        number
    }
}

impl fmt::Display for Count {
    fn fmt<W: fmt::Write>(&self, f: &mut fmt::Formatter<W>) -> fmt::Result {
        self.0.fmt(f)
    }
}
