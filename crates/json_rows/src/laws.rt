// Laws of what JSON values mean.
ghost use Rattle.json_rows.specs.laws.Fitness.{RowsAreFit};
ghost use Rattle.json_rows.specs.laws.Meanings.{MeansOrFails, MeansOneList, MeansOrFailsAlone, FaultsAreTwo, RowsRise, OrderIsFree};

/// A JSON value at a path means one list of rows, or has one fault: `NotInSchema` or `BadValue`.
pub fn values_mean_rows_or_fail()
    ensures one { MeansOrFails }
    ensures same { MeansOneList }
    ensures alone { MeansOrFailsAlone }
    ensures faults { FaultsAreTwo }
{}

/// Rows rise by path, whatever the order of the text's members and items.
pub fn rows_rise()
    ensures rise { RowsRise }
    ensures free { OrderIsFree }
{}

/// Rows of a text may stand in an operation, where the schema was read from a text.
pub fn rows_are_fit()
    ensures { RowsAreFit }
{}
