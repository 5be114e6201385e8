ghost use Rattle.cell_history.specs.Cells.{CellFollows, CellIsOfDrive};

/// A deed turns a zone's cell into the cell of its history followed by that deed.
pub fn cell_follows()
    ensures { CellFollows }
{}

/// The cell of a zone of a drive is a cell of that drive.
pub fn cell_is_of_drive()
    ensures { CellIsOfDrive }
{}
