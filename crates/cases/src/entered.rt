// Rows from lists that keep their forms.
ghost use Rattle.std.specs.Prelude.{IsTrue};
ghost use Rattle.rows.specs.Rows.{plain_load, plain_qse, plain_resource, plain_trade};
ghost use Rattle.cases.specs.Kept.{form_kept};
ghost use Rattle.cases.specs.Written.{WrittenLoad, WrittenQse, WrittenTrade, WrittenUnit};

use entry::form::Form;
use entry::load::load_row;
use entry::qse::qse_row;
use entry::resource::resource_row;
use entry::trade::trade_row;
use rows::load::LoadRow;
use rows::qse::QseRow;
use rows::resource::ResourceRow;
use rows::trade::TradeRow;

pub(crate) fn qse(list: &[i64]) -> QseRow
    requires { IsTrue (form_kept Form.Figures list.now) }
    ensures { WrittenQse (plain_qse result) list.now }
{
    qse_row(list).unwrap()
}

pub(crate) fn load(list: &[i64]) -> LoadRow
    requires { IsTrue (form_kept Form.Load list.now) }
    ensures { WrittenLoad (plain_load result) list.now }
{
    load_row(list).unwrap()
}

pub(crate) fn unit(list: &[i64]) -> ResourceRow
    requires { IsTrue (form_kept Form.Resource list.now) }
    ensures { WrittenUnit (plain_resource result) list.now }
{
    resource_row(list).unwrap()
}

pub(crate) fn trade(list: &[i64]) -> TradeRow
    requires { IsTrue (form_kept Form.Trade list.now) }
    ensures { WrittenTrade (plain_trade result) list.now }
{
    trade_row(list).unwrap()
}
