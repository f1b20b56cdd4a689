ghost use Rattle.std.specs.Prelude.{◌≡◌, [], ◌∷◌};
ghost use Rattle.name_binding.specs.Spots.{noted, spot};

/// The offset of a fault in bytes, and its code.
#[derive(Clone, Copy)]
pub struct Spot {
    pub at: u32,
    pub code: u16,
}

/// The least of the faults that were noted, by offset and then by code.
#[derive(Clone, Copy)]
pub struct Faults {
    pub least: Option<Spot>,
}

impl Faults {
    /// No fault.
    pub fn new() -> Faults
        ensures none { result.least ≡ None }
    {
        Faults { least: None }
    }

    /// Notes a fault.
    pub fn note(&mut self, at: u32, code: u16)
        ensures noted { self.new.least ≡ noted self.old.least (spot at code ∷ []) }
    {
        match self.least {
            Some(least) if least.at < at || (least.at == at && least.code <= code) => {}
            _ => self.least = Some(Spot { at, code }),
        }
    }
}
