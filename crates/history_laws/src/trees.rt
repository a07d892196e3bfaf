ghost use Rattle.history_laws.specs.TreeLaws.{SettingOneKeepsRising, SettingKeepsRising, OperationsKeepRising, EffectsKeepRising, SetsValue, KeepsOtherValues, SetsLastValues, KeepsUncovered, DeletesValues, OperationsSetValues, EffectsSetValues, TestSaysRising, ValuesDecide};

/// Whatever is set, deleted or replaced, a tree's rows stay in order, and no path stands twice.
pub fn rows_stay_rising()
    ensures one { SettingOneKeepsRising }
    ensures all { SettingKeepsRising }
    ensures operation { OperationsKeepRising }
    ensures effect { EffectsKeepRising }
{}

/// A set row's value stands at its path, and all else stays.
pub fn setting_is_exact()
    ensures here { SetsValue }
    ensures elsewhere { KeepsOtherValues }
    ensures all { SetsLastValues }
{}

/// A delete removes what its pattern covers, and nothing else.
pub fn deletes_are_exact()
    ensures rows { KeepsUncovered }
    ensures values { DeletesValues }
{}

/// What a Set leaves at a path is decided by the operations and by what stood there.
pub fn operations_act_by_path()
    ensures one { OperationsSetValues }
    ensures all { EffectsSetValues }
{}

/// Rows rise where each is above the one before it.
pub fn rising_is_tested()
    ensures { TestSaysRising }
{}

/// A tree is known by its values.
pub fn values_decide()
    ensures { ValuesDecide }
{}
