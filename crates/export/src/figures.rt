// What every entity number holds, in one buffer of figures.
ghost use Rattle.std.specs.Prelude.{◌≡◌, ℕ, ◌<◌, get_or};
ghost use Rattle.paper.specs.Sessions.{zero_cell};
ghost use Rattle.paper.specs.Demands.{Touched, session_sides};
ghost use Rattle.export.specs.Day.{figure_of, figures_of, figures_written};

use crate::Figure;
use desk::Session;
use paper::ledger::Cell;

// The position, or a count, which is far below 2^63.
#[tactic(auto, using(std::proofs::lemmas::Int::ints), unfolding(crate::specs::Day::figure_of, crate::specs::Day::named_figures))]
fn figure_of(f: usize, cell: Cell) -> i64
    requires f_bound { f < 3 }
    requires touched { Touched session_sides cell }
    ensures { result ≡ figure_of f cell }
{
    match f {
        Figure::POSITION => cell.position,
        Figure::SENT => cell.sent as i64,
        _ => cell.received as i64,
    }
}

// As many as there is room for; the rest of a longer buffer stays.
pub fn hand_figures(cells: &[Cell; Session::ROSTER], figures: &mut [i64])
    requires { (e : ℕ) → Touched session_sides (get_or cells.now e zero_cell) }
    ensures { figures.new ≡ figures_written (figures_of cells.now) figures.old }
{
    let end = figures.len().min(Figure::FIGURES * Session::ROSTER);
    for i in 0..end {
        let cell = cells[i % Session::ROSTER];
        figures[i] = figure_of(i / Session::ROSTER, cell);
    }
}
