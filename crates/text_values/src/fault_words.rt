ghost use Rattle.std.specs.Prelude.{◌≡◌};
ghost use Rattle.text_values.specs.FaultWords.{fault_word};

/// The word of a fault's code, from 1 to 22 or from 30 to 36, as a line that names the fault has it; any other code has none.
pub fn fault_word(code: u16) -> &'static str
    ensures word { result.now ≡ fault_word code }
{
    match code {
        0 => "",
        1 => "BadByte",
        2 => "UnclosedParen",
        3 => "StrayClose",
        4 => "TooDeep",
        5 => "NotADefine",
        6 => "UnknownSection",
        7 => "RepeatedSection",
        8 => "BadForm",
        9 => "ReservedName",
        10 => "DuplicateName",
        11 => "UnknownType",
        12 => "TypeCycle",
        13 => "UnknownPredicate",
        14 => "UnknownTask",
        15 => "UnknownObject",
        16 => "UnknownVariable",
        17 => "WrongArity",
        18 => "DuplicateVariable",
        19 => "UnknownSubtaskId",
        20 => "CyclicOrder",
        21 => "TooManySubtasks",
        22 => "TooManyTypes",
        23..=29 => "",
        30 => "NoMarker",
        31 => "BadLine",
        32 => "RepeatedId",
        33 => "UnknownId",
        34 => "IdUsedTwice",
        35 => "NoRoot",
        36 => "Unreached",
        37.. => "",
    }
}
