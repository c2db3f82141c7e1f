// The figures of a QSE.
ghost use Rattle.std.specs.Prelude.{◌≡◌};
ghost use Rattle.rows.specs.Rows.{plain_figures, plain_figures_side};
ghost use Rattle.entry.specs.Keeps.{Entered};
ghost use Rattle.entry.specs.Numbers.{figures_numbers, figures_side_numbers};
ghost use Rattle.entry.specs.Parts.{Fits};
ghost use Rattle.entry.specs.Places.{figures_side};

use super::checks::check;
use super::form::Form;
use super::places::{FIGURES_SIDE_SIZE, POSITIONS};
use super::powers::nine;
use rows::fault::Fault;
use rows::figures::{Figures, FiguresSide};

fn figures_side(list: &[i64]) -> FiguresSide
    requires { Fits figures_side list.now }
    ensures { figures_side_numbers (plain_figures_side result) ≡ list.now }
{
    FiguresSide {
        dc_import: list[0] as u32,
        storage_net: list[1] as i32,
        positions: nine(&list[POSITIONS..FIGURES_SIDE_SIZE]),
    }
}

// The QSE's number beside its figures.
pub fn figures_row(list: &[i64]) -> Result<(u16, Figures), Fault>
    ensures { Entered Form.Figures (λ f. figures_numbers f.0 (plain_figures f.1)) list.now result }
{
    check(Form::Figures, list)?;
    let [qse, credit, purchase, sale, tie, rest @ ..] = list else {
        return Err(Fault::WrongLength);
    };
    let (snapshot, adjusted) = rest.split_at(FIGURES_SIDE_SIZE);
    let figures = Figures {
        credit: *credit as u32,
        purchase: *purchase as u32,
        sale: *sale as u32,
        tie: *tie == 1,
        snapshot: figures_side(snapshot),
        adjusted: figures_side(adjusted),
    };
    Ok((*qse as u16, figures))
}
