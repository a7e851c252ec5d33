// Refusals, by the layer that finds them. Number, place and layer of each are defined in specs/Faults.
ghost use Rattle.std.specs.Prelude.{◌≡◌};
ghost use Rattle.model.specs.Faults.{read_number, read_place, text_number, text_place, text_layer, repair_number, repair_place, mend_number, mend_place, mend_layer};
ghost use Rattle.model.specs.declared.faults.MendFault.TheVariants.{Repair};
ghost use Rattle.model.specs.declared.faults.TextFault.TheVariants.{Read};

// A text that is refused; the number is its line.
#[derive(Clone, Copy, PartialEq, Eq, Debug)]
pub enum ReadFault {
    TooLong,
    WrongLine(usize),
    Misplaced(usize),
    AfterEnd(usize),
    EndsEarly(usize),
    TooManyNodes,
}

// Reading into a row, or writing into a buffer, that is refused. A buffer's number is the length needed.
#[derive(Clone, Copy, PartialEq, Eq, Debug)]
pub enum TextFault {
    TooShort(usize),
    Read(ReadFault),
}

// A transformation's own refusals.
#[derive(Clone, Copy, PartialEq, Eq, Debug)]
pub enum StageFault {
    WrongSource,
    DraftTooLarge,
}

// A draft that is refused; the number is its node.
#[derive(Clone, Copy, PartialEq, Eq, Debug)]
pub enum RepairFault {
    FromNoName(usize),
    SpelledApart(usize),
    OuterDeclared(usize),
    Lost(usize),
}

// Mending outside a session that is refused.
#[derive(Clone, Copy, PartialEq, Eq, Debug)]
pub enum MendFault {
    TooShort,
    Repair(RepairFault),
}

// What a transformation, repaired or not, and a stage refuse with.
#[derive(Clone, Copy, PartialEq, Eq, Debug)]
pub enum DraftFault {
    Stage(StageFault),
    Repair(RepairFault),
}

// The session's own refusals, and those of the layers below, whole.
#[derive(Clone, Copy, PartialEq, Eq, Debug)]
pub enum SessionFault {
    Read(ReadFault),
    Stage(StageFault),
    Repair(RepairFault),
    NoProgram,
    TooShort(usize),
    NoSuch(usize),
}

#[derive(Clone, Copy, PartialEq, Eq, Debug)]
pub enum Layer {
    Reading,
    Staging,
    Repairing,
    Session,
}

impl ReadFault {
    // The number of the refusal.
    pub fn number(self) -> u8
        ensures { result ≡ read_number self }
    {
        match self {
            ReadFault::TooLong => 1,
            ReadFault::WrongLine(_) => 2,
            ReadFault::Misplaced(_) => 3,
            ReadFault::AfterEnd(_) => 4,
            ReadFault::EndsEarly(_) => 4,
            ReadFault::TooManyNodes => 5,
        }
    }

    // The line that it speaks of.
    pub fn place(self) -> usize
        ensures { result ≡ read_place self }
    {
        match self {
            ReadFault::TooLong => 0,
            ReadFault::WrongLine(line) => line,
            ReadFault::Misplaced(line) => line,
            ReadFault::AfterEnd(line) => line,
            ReadFault::EndsEarly(lines) => lines,
            ReadFault::TooManyNodes => 1024,
        }
    }
}

impl TextFault {
    // The number of the refusal.
    pub fn number(self) -> u8
        ensures { result ≡ text_number self }
    {
        match self {
            TextFault::TooShort(_) => 13,
            TextFault::Read(fault) => fault.number(),
        }
    }

    // The line that it speaks of, or the length that a buffer needs.
    pub fn place(self) -> usize
        ensures { result ≡ text_place self }
    {
        match self {
            TextFault::TooShort(needed) => needed,
            TextFault::Read(fault) => fault.place(),
        }
    }

    // The layer that found it.
    pub fn layer(self) -> Layer
        ensures { result ≡ text_layer self }
    {
        match self {
            TextFault::TooShort(_) => Layer::Session,
            TextFault::Read(_) => Layer::Reading,
        }
    }
}

impl RepairFault {
    // The number of the refusal.
    pub fn number(self) -> u8
        ensures { result ≡ repair_number self }
    {
        match self {
            RepairFault::FromNoName(_) => 9,
            RepairFault::SpelledApart(_) => 10,
            RepairFault::OuterDeclared(_) => 11,
            RepairFault::Lost(_) => 12,
        }
    }

    // The node of the draft that it speaks of.
    pub fn place(self) -> usize
        ensures { result ≡ repair_place self }
    {
        match self {
            RepairFault::FromNoName(node) => node,
            RepairFault::SpelledApart(node) => node,
            RepairFault::OuterDeclared(node) => node,
            RepairFault::Lost(node) => node,
        }
    }
}

impl MendFault {
    // The number of the refusal.
    pub fn number(self) -> u8
        ensures { result ≡ mend_number self }
    {
        match self {
            MendFault::TooShort => 13,
            MendFault::Repair(fault) => fault.number(),
        }
    }

    // The node of the draft that it speaks of, or 0.
    pub fn place(self) -> usize
        ensures { result ≡ mend_place self }
    {
        match self {
            MendFault::TooShort => 0,
            MendFault::Repair(fault) => fault.place(),
        }
    }

    // The layer that found it.
    pub fn layer(self) -> Layer
        ensures { result ≡ mend_layer self }
    {
        match self {
            MendFault::TooShort => Layer::Session,
            MendFault::Repair(_) => Layer::Repairing,
        }
    }
}

impl From<RepairFault> for MendFault {
    ghost from_gives = { λ e r. r ≡ Repair e };

    fn from(refused: RepairFault) -> MendFault {
        MendFault::Repair(refused)
    }
}

impl From<ReadFault> for TextFault {
    ghost from_gives = { λ e r. r ≡ Read e };

    fn from(refused: ReadFault) -> TextFault {
        TextFault::Read(refused)
    }
}
