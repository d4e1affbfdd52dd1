//! Reports that are made at once.

ghost use Rattle.std.specs.Prelude.{◌≡◌, ◌^◌, ◌<◌, length};

use demand_book::Report;
use std::marker::Model;

/// The reports that a reporter makes at once. Contracts see the list of them.
#[derive(Drop)]
pub struct Piece {
    reports: Vec<Report>,
}

impl Model for Piece {
    ghost use Rattle.std.specs.Prelude.{List};
    ghost use Rattle.bwe_specs.specs.declared.report.Report.{Report};

    ghost Value = { List Report };

    ghost view = { λ piece. piece.reports.items };
}

impl Piece {
    /// A piece of these reports. It takes no memory.
    pub fn new(reports: Vec<Report>) -> Piece
        ensures { result ≡ reports.items }
    {
        Piece { reports }
    }

    /// The reports, in their order.
    pub fn as_slice(&self) -> &[Report]
        ensures { result.now ≡ self.now }
    {
        self.reports.as_slice()
    }
}
