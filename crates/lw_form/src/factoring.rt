// Factored forms, over numbers of a table.
ghost use Rattle.std.specs.Prelude.{◌≡◌, ◌<◌, ◌≤◌, ◌++◌, [], ◌∷◌, List, not, map, filter, length};
ghost use Rattle.std.specs.Prelude.{is_some, IfOk, OnOk};
ghost use Rattle.lw_laws.specs.Forms.{Form};
ghost use Rattle.lw_laws.specs.Signals.{factored as factored_form, count_having, has, cleared};
ghost use Rattle.lw_laws.specs.Signals.{most_common, shared_literal};
ghost use Rattle.lw_form.specs.Factoring.{plain_literal, plain_choice, CanJoin, DoesTask};
ghost use Rattle.lw_form.specs.Factoring.{IsWorking, Joins};
ghost use Rattle.lw_form.specs.Products.{AreRowsOver};
ghost use Rattle.lw_form.specs.Tables.{made, forms_at, IsMadeAs};

use crate::maker::{Fanins, Maker};
use crate::products::signed;
use crate::row::Row;
use crate::table::FormTable;
use std::alloc::{AllocError, Global};

// A column with a sign.
#[derive(Clone, Copy)]
struct Literal {
    column: usize,
    sign: bool,
}

// The literal that stands in most rows so far, and in how many.
#[derive(Clone, Copy)]
struct Choice {
    literal: Option<Literal>,
    rows: usize,
}

// What is still to be done: to factor some rows, or to join the two forms made last under a
// literal.
#[derive(Drop)]
enum Task {
    Factor(Vec<Row>),
    Join(u32),
}

// The rows that have a literal, without it, and the other rows.
#[derive(Drop)]
struct Cut {
    having: Vec<Row>,
    others: Vec<Row>,
}

// How many rows have the literal.
fn count(rows: &[Row], literal: Literal) -> usize
    ensures { result ≡ count_having (plain_literal literal) rows.now }
{
    let mut count = 0;
    for row in rows {
        if row.has(literal.column, literal.sign) {
            count += 1;
        }
    }
    count
}

// The literal of this column and sign, where it stands in more rows.
fn better(rows: &[Row], choice: Choice, column: usize, sign: bool) -> Choice
    ensures { (ls : List _) → most_common rows.now ls result.rows (plain_choice result.literal)
        ≡ most_common rows.now (record { column = column; sign = sign } ∷ ls) choice.rows
        (plain_choice choice.literal) }
{
    let literal = Literal { column, sign };
    let count = count(rows, literal);
    if count > choice.rows {
        Choice {
            literal: Some(literal),
            rows: count,
        }
    } else {
        choice
    }
}

// The first of the literals that stand in most rows, if in two at least.
fn shared(rows: &[Row], columns: usize) -> Option<Literal>
    ensures { plain_choice result ≡ shared_literal columns rows.now }
{
    let mut choice = Choice {
        literal: None,
        rows: 1,
    };
    for column in 0..columns {
        choice = better(rows, choice, column, true);
        choice = better(rows, choice, column, false);
    }
    choice.literal
}

// Whether a literal stands in two rows at least.
pub(crate) fn have_shared(rows: &[Row], columns: usize) -> bool
    ensures { result ≡ is_some (shared_literal columns rows.now) }
{
    shared(rows, columns).is_some()
}

// Puts a row on its side of the cut.
fn put(cut: &mut Cut, row: Row, literal: Literal) -> Result<(), AllocError>
    ensures having { OnOk result (cut.new.having.items ≡ cut.old.having.items
        ++ map (cleared (plain_literal literal))
        (filter (has (plain_literal literal)) (row ∷ []))) }
    ensures others { OnOk result (cut.new.others.items ≡ cut.old.others.items
        ++ filter (λ r. not (has (plain_literal literal) r)) (row ∷ [])) }
{
    if row.has(literal.column, literal.sign) {
        let mut rest = row;
        rest.clear(literal.column);
        cut.having.push(rest)?;
    } else {
        cut.others.push(row)?;
    }
    Ok(())
}

// Cuts rows by a literal.
fn cut_by(alloc: Global, rows: Vec<Row>, literal: Literal) -> Result<Cut, AllocError>
    ensures having { IfOk result (λ cut. cut.having.items
        ≡ map (cleared (plain_literal literal))
        (filter (has (plain_literal literal)) rows.items)) }
    ensures others { IfOk result (λ cut. cut.others.items
        ≡ filter (λ r. not (has (plain_literal literal) r)) rows.items) }
{
    let mut cut = Cut {
        having: Vec::new(alloc),
        others: Vec::new(alloc),
    };
    let mut left = rows.into_iter();
    'rows: while let Some(row) = left.next() {
        put(&mut cut, row, literal)?;
    }
    Ok(cut)
}

// What is still to be done, and the forms that were made, the last of both last.
#[derive(Drop)]
struct Work {
    tasks: Vec<Task>,
    done: Vec<u32>,
}

// Puts what is to be done with a cut: both sides are factored, and then joined.
fn push_cut(tasks: &mut Vec<Task>, literal: u32, cut: Cut) -> Result<(), AllocError>
    ensures { OnOk result (tasks.new.items ≡ ((tasks.old.items ++ Task.Join literal ∷ [])
        ++ Task.Factor cut.others ∷ []) ++ Task.Factor cut.having ∷ []) }
{
    tasks.push(Task::Join(literal))?;
    tasks.push(Task::Factor(cut.others))?;
    tasks.push(Task::Factor(cut.having))?;
    Ok(())
}

// The form made last.
fn last(done: &mut Vec<u32>) -> u32
    requires { 1 ≤ length done.old.items }
    ensures { done.old.items ≡ done.new.items ++ result ∷ [] }
{
    match done.pop() {
        Some(form) => form,
        None => unreachable!(),
    }
}

impl Maker {
    // Joins the two forms made last: the Or of the last, and of the And of the literal and the one
    // before.
    fn join(&self, table: &mut FormTable, literal: u32, work: &mut Work) -> Result<(), AllocError>
        requires { CanJoin table.old literal work.old.done.items }
        ensures { OnOk result
            (Joins self.now.width table.old table.new work.old work.new literal) }
    {
        let others = last(&mut work.done);
        let having = last(&mut work.done);
        let both = self.conjunction(table, &[literal, having])?;
        let form = self.disjunction(table, &[both, others])?;
        work.done.push(form)?;
        Ok(())
    }
}

impl<'a> Fanins<'a> {
    // Begins to factor some rows: sums them up where no literal is shared, and else cuts them.
    fn begin(
        &self,
        table: &mut FormTable,
        rows: Vec<Row>,
        work: &mut Work,
    ) -> Result<(), AllocError>
        requires { AreRowsOver self.now table.old rows.items }
        ensures { OnOk result
            (DoesTask self.now table.old table.new work.old work.new (Task.Factor rows)) }
    {
        let _count = table.len();
        let Some(literal) = shared(&rows, self.forms.len()) else {
            let form = self.sum_of_products(table, &rows)?;
            work.done.push(form)?;
            return Ok(());
        };
        let form = signed(self.forms[literal.column], literal.sign);
        let cut = cut_by(self.maker.alloc, rows, literal)?;
        push_cut(&mut work.tasks, form, cut)
    }

    // Does one task.
    fn advance(&self, table: &mut FormTable, task: Task, work: &mut Work) -> Result<(), AllocError>
        requires { (fs : List Form) × (form : Form) ×
            IsWorking self.now.maker.now.width fs self.now.forms.now table.old
            (work.old.tasks.items ++ task ∷ []) work.old.done.items (form ∷ []) }
        ensures { OnOk result (DoesTask self.now table.old table.new work.old work.new task) }
    {
        match task {
            Task::Factor(rows) => self.begin(table, rows, work),
            Task::Join(literal) => self.maker.join(table, literal, work),
        }
    }

    /// The factored form of some rows.
    pub(crate) fn factored(&self, table: &mut FormTable, rows: Vec<Row>) -> Result<u32, AllocError>
        requires { AreRowsOver self.now table.old rows.items }
        ensures { IfOk result (λ form. IsMadeAs table.old table.new form
            (factored_form self.now.maker.now.width
            (forms_at (made table.old) self.now.forms.now) rows.items)) }
    {
        let mut work = Work {
            tasks: Vec::new(self.maker.alloc),
            done: Vec::new(self.maker.alloc),
        };
        work.tasks.push(Task::Factor(rows))?;
        'tasks: while let Some(task) = work.tasks.pop() {
            self.advance(table, task, &mut work)?;
        }
        Ok(last(&mut work.done))
    }
}
