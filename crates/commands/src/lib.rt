// The commands of a job's bytes: which byte is which, the checks of document 01 on one command, each by itself, and what a command adds to
// the record.
#![tactic(auto)]

ghost use Rattle.std.specs.Prelude.{◌≡◌, true, ◌+◌, ◌≤◌, ◌<◌, length, get_or, eqb, leb, Ok, IfOk};
ghost use Rattle.base.specs.Lists.{any_of};
ghost use Rattle.model.specs.Tables.{columns_of};
ghost use Rattle.model.specs.WellFormed.{in_scope, in_range};
ghost use Rattle.job.specs.Meaning.{expression_record, record_of};
ghost use Rattle.layout.specs.declared.Command.TheVariants.{NextColumn, TableUsed, OutputColumn, NumberCompared, ColumnCompared};
ghost use Rattle.layout.specs.Commands.{command_of, operands, in_condition, ending, before, add_column};
ghost use Rattle.layout.specs.Reading.{starts, current, follows, has_room, has_operands, in_ranges, above_last};
ghost use Rattle.commands.specs.Reached.{started, state_of, Held};
ghost use Rattle.commands.specs.Uses.{part_more, grown, judge, judged_at, taken_at, refused_at, stepped_of, PartFits, Fits, Ready};

use job::{Column, Comparison, Expression, Job};
use layout::{Command, Fault};
use model::Bounds;
use std::marker::Model;

// What a command adds to the record. The commands that begin an expression or end the job add nothing.
#[derive(Clone, Copy)]
pub enum Addition {
    Table,
    Column(Column),
    Part(Part),
    Nothing,
}

// What a command adds to an expression.
#[derive(Clone, Copy)]
pub enum Part {
    Used(u8),
    Output(u8),
    Clause,
    Compared(Comparison),
}

// ---- Commands by themselves

// Whether the bytes begin as a job's do.
pub fn is_start(s: &[u8]) -> bool
    ensures { result ≡ starts s.now }
{
    s.starts_with(&layout::START)
}

// The command that a byte stands for. The bytes are matched over their ranges, as they are listed. By the definition a byte that is no
// command's stands for none; what that means is said by reading.
#[tactic(auto, unfolding(layout::specs::Commands::command_of))]
pub fn command(b: u8) -> Option<Command>
    ensures { result ≡ command_of b }
{
    match b {
        0x10..=0x11 => if b == 0x10 {
            Some(Command::NextTable)
        } else {
            Some(Command::NextColumn)
        },
        0x20..=0x21 => if b == 0x20 {
            Some(Command::ExtractBegins)
        } else {
            Some(Command::QueryBegins)
        },
        0x30..=0x31 => if b == 0x30 {
            Some(Command::TableUsed)
        } else {
            Some(Command::OutputColumn)
        },
        0x40..=0x42 => if b == 0x40 {
            Some(Command::NextClause)
        } else if b == 0x41 {
            Some(Command::NumberCompared)
        } else {
            Some(Command::ColumnCompared)
        },
        0xFF => Some(Command::End),
        _ => None,
    }
}

// How many operand bytes stand behind a command. Here and below a match names every command, so that none is forgotten.
pub fn operands(c: Command) -> usize
    ensures { result ≡ operands c }
{
    match c {
        Command::NextColumn => 8,
        Command::TableUsed | Command::OutputColumn => 1,
        Command::NumberCompared => 6,
        Command::ColumnCompared => 3,
        Command::NextTable
        | Command::ExtractBegins
        | Command::QueryBegins
        | Command::NextClause
        | Command::End => 0,
    }
}

// Whether a command may come after the last one, which is told by its byte, 0 at the start: document 01, and so the definition of reading,
// goes by that byte.
pub fn follows(c: Command, last: u8, in_query: bool) -> bool
    ensures { result ≡ any_of (eqb last) (before in_query c) }
{
    match c {
        Command::NextTable => matches!(last, 0 | 0x11),
        Command::NextColumn => matches!(last, 0x10 | 0x11),
        Command::ExtractBegins => last == 0x11,
        Command::QueryBegins => !in_query && is_ending(last),
        Command::TableUsed => matches!(last, 0x20 | 0x21 | 0x30),
        Command::OutputColumn => matches!(last, 0x30 | 0x31),
        Command::NextClause => is_ending(last),
        Command::NumberCompared | Command::ColumnCompared => is_in_condition(last),
        Command::End => in_query && is_ending(last),
    }
}

// Whether the last command, by its byte as in `follows`, stands in a condition. A comparison may follow it then.
fn is_in_condition(last: u8) -> bool
    ensures { result ≡ any_of (eqb last) in_condition }
{
    matches!(last, 0x40 | 0x41 | 0x42)
}

// Whether an expression may end after the last command.
fn is_ending(last: u8) -> bool
    ensures { result ≡ any_of (eqb last) ending }
{
    last == 0x31 || is_in_condition(last)
}

// Whether a bound or a number is within the limits.
fn in_range(v: i32) -> bool
    ensures { result ≡ in_range v }
{
    (Job::LOWEST..=Job::HIGHEST).contains(&v)
}

// Whether a column's bounds are in range, and lo is at most hi.
fn are_bounds(b: Bounds) -> bool
    ensures { result ≡ in_ranges (add_column b.lo b.hi) }
{
    in_range(b.lo) && in_range(b.hi) && b.lo <= b.hi
}

// ---- What has been read

// What has been read so far of some bytes: where the next command is due, the byte of the last command (0 at the start), whether the query
// has begun, and the record. The record is a job's at every moment: its query is empty until it begins. The last command is a byte, as in
// the definition's state and in what `follows` is asked.
#[derive(Drop)]
pub struct Progress<'a> {
    bytes: &'a [u8],
    at: usize,
    last: u8,
    in_query: bool,
    job: Job,
}

// Clauses see the bytes, the place and what the definition of reading says has been read.
impl<'a> Model for Progress<'a> {
    ghost use Rattle.commands.specs.Reached.{Reached, state_of, Held};

    ghost Value = { Reached };

    ghost view = { λ p. record { bytes = p.bytes.now; at = p.at; state = state_of p.last p.in_query p.job } };

    ghost invariant = { λ p. Held p.job (state_of p.last p.in_query p.job) };
}

impl<'a> Progress<'a> {
    // Nothing but the start.
    pub fn new(bytes: &'a [u8]) -> Self
        ensures { result ≡ started bytes.now }
    {
        Self {
            bytes,
            at: 4,
            last: 0,
            in_query: false,
            job: Job::empty(),
        }
    }

    // What a reader has read that keeps it in parts.
    pub fn of_parts(bytes: &'a [u8], at: usize, last: u8, in_query: bool, job: Job) -> Self
        requires { Held job (state_of last in_query job) }
        ensures { result ≡ record { bytes = bytes.now; at = at; state = state_of last in_query job } }
    {
        Self {
            bytes,
            at,
            last,
            in_query,
            job,
        }
    }

    // The bytes.
    pub fn bytes(&self) -> &'a [u8]
        ensures { result.now ≡ self.now.bytes }
    {
        self.bytes
    }

    // Where the next command is due.
    pub fn at(&self) -> usize
        ensures { result ≡ self.now.at }
    {
        self.at
    }

    // The record.
    pub fn into_job(self) -> Job
        ensures { result ≡ record_of self.entry.state.job }
    {
        self.job
    }

    // How many tables and columns are declared.
    fn tables(&self) -> usize
        ensures declared { result ≡ length self.now.state.job.tables }
        ensures within { result ≤ 4 }
        ensures some { follows self.now.state NextColumn ≡ true → 0 < result }
    {
        self.job.declared.tables
    }

    fn width(&self) -> usize
        ensures declared { result ≡ length (columns_of self.now.state.job.tables) }
        ensures within { result ≤ 16 }
    {
        self.job.declared.width
    }

    // The expression that commands are for.
    fn current(&self) -> &Expression
        ensures laid { result.now ≡ expression_record (current self.now.state) }
        ensures within { result.now.condition.size ≤ 4 }
    {
        if self.in_query {
            &self.job.query
        } else {
            &self.job.extract
        }
    }

    // The command that is due, if its byte is one.
    pub fn due(&self) -> Option<Command>
        requires { self.now.at < length self.now.bytes }
        ensures { result ≡ command_of (get_or self.now.bytes self.now.at 0) }
    {
        command(self.bytes[self.at])
    }

    // Whether a command is in order.
    pub fn follows(&self, c: Command) -> bool
        ensures { result ≡ follows self.now.state c }
    {
        follows(c, self.last, self.in_query)
    }

    // Whether a command's entry is within the limits.
    #[tactic(auto, using(crate::proofs::Looks::size_held))]
    pub fn has_room(&self, c: Command) -> bool
        ensures { result ≡ has_room self.now.state c }
    {
        match c {
            Command::NextTable => self.tables() < Job::TABLES,
            Command::NextColumn => self.width() < Job::COLUMNS,
            Command::NextClause => self.current().condition.size < Job::CLAUSES,
            Command::NumberCompared | Command::ColumnCompared => self.has_room_to_compare(),
            Command::ExtractBegins
            | Command::QueryBegins
            | Command::TableUsed
            | Command::OutputColumn
            | Command::End => true,
        }
    }

    // Whether a command's operands stand behind its byte, which is there.
    pub fn has_operands(&self, c: Command) -> bool
        requires { self.now.at < length self.now.bytes }
        ensures { result ≡ has_operands self.now.bytes self.now.at c }
    {
        operands(c) < self.bytes.len() - self.at
    }

    // Whether the last clause has room, or there is none.
    #[tactic(auto, using(crate::proofs::Looks::room_none, crate::proofs::Looks::room_some))]
    fn has_room_to_compare(&self) -> bool
        ensures { result ≡ has_room self.now.state NumberCompared }
    {
        let clauses = self.current().condition.clauses();
        clauses.last().is_none_or(|k| k.size < Job::COMPARISONS)
    }

    // Whether column c is declared and its table used.
    fn is_in_scope(&self, c: u8) -> bool
        ensures scoped { result ≡ in_scope self.now.state.job.tables (current self.now.state) c }
        ensures within { result ≡ true → c < 16 }
    {
        let k = usize::from(c);
        if k >= self.job.declared.width {
            return false;
        }
        let table = self.job.declared.columns[k].table;
        self.current().used_tables().contains(&table)
    }

    // Whether table t comes after the used tables.
    #[tactic(auto, using(crate::proofs::Looks::above_none, crate::proofs::Looks::above_some))]
    fn is_above(&self, t: u8) -> bool
        ensures { result ≡ above_last (current self.now.state).used t }
    {
        self.current().used_tables().last().is_none_or(|u| *u < t)
    }

    // Whether column c is an output already.
    #[tactic(auto, using(crate::proofs::Looks::outputs_held))]
    fn is_output(&self, c: u8) -> bool
        ensures { result ≡ any_of (eqb c) (current self.now.state).outputs }
    {
        self.current().output_columns().contains(&c)
    }

    // ---- A command's operands, by the checks 7 to 10 in this order

    // The op at a place, if the byte is an op's.
    fn op_at(&self, at: usize) -> Result<u8, Fault>
        requires { at < length self.now.bytes }
        ensures { result ≡ judge 8 (leb (get_or self.now.bytes at 0) 4) (Ok (get_or self.now.bytes at 0)) }
    {
        let op = self.bytes[at];
        if !words::is_op(op) {
            return Err(Fault::UnknownOp);
        }
        Ok(op)
    }

    // The column at a place, if it is in scope.
    fn column_at(&self, at: usize) -> Result<u8, Fault>
        requires { at < length self.now.bytes }
        ensures judged { result ≡ judge 9 (in_scope self.now.state.job.tables (current self.now.state) (get_or self.now.bytes at 0))
            (Ok (get_or self.now.bytes at 0)) }
        ensures within { IfOk result (λ c. c < 16) }
    {
        let c = self.bytes[at];
        if !self.is_in_scope(c) {
            return Err(Fault::Undeclared);
        }
        Ok(c)
    }

    // 11: lo, hi.
    fn next_column(&self) -> Result<Addition, Fault>
        requires { (follows self.now.state NextColumn ≡ true) × (self.now.at + 9 ≤ length self.now.bytes) }
        ensures { result ≡ judged_at self.now NextColumn }
    {
        let bounds = Bounds {
            lo: words::read(self.bytes, self.at + 1),
            hi: words::read(self.bytes, self.at + 5),
        };
        if !are_bounds(bounds) {
            return Err(Fault::OutOfRange);
        }
        // The table that was declared last.
        let table = (self.tables() - 1) as u8;
        Ok(Addition::Column(Column { table, bounds }))
    }

    // 30: a table, declared and above the ones before it.
    fn table_used(&self) -> Result<Addition, Fault>
        requires { self.now.at + 2 ≤ length self.now.bytes }
        ensures { result ≡ judged_at self.now TableUsed }
    {
        let t = self.bytes[self.at + 1];
        if usize::from(t) >= self.tables() {
            return Err(Fault::Undeclared);
        }
        if !self.is_above(t) {
            return Err(Fault::NotNew);
        }
        Ok(Addition::Part(Part::Used(t)))
    }

    // 31: a column in scope that is no output yet.
    fn output_column(&self) -> Result<Addition, Fault>
        requires { self.now.at + 2 ≤ length self.now.bytes }
        ensures { result ≡ judged_at self.now OutputColumn }
    {
        let c = self.column_at(self.at + 1)?;
        if self.is_output(c) {
            return Err(Fault::NotNew);
        }
        Ok(Addition::Part(Part::Output(c)))
    }

    // 41: op, column, number. The number is judged before the op.
    fn number_compared(&self) -> Result<Addition, Fault>
        requires { self.now.at + 7 ≤ length self.now.bytes }
        ensures { result ≡ judged_at self.now NumberCompared }
    {
        let number = words::read(self.bytes, self.at + 3);
        if !in_range(number) {
            return Err(Fault::OutOfRange);
        }
        let op = self.op_at(self.at + 1)?;
        let left = self.column_at(self.at + 2)?;
        let k = Comparison {
            op,
            left,
            right: 0,
            number,
        };
        Ok(Addition::Part(Part::Compared(k)))
    }

    // 42: op, column, column.
    fn column_compared(&self) -> Result<Addition, Fault>
        requires { self.now.at + 4 ≤ length self.now.bytes }
        ensures { result ≡ judged_at self.now ColumnCompared }
    {
        let op = self.op_at(self.at + 1)?;
        let left = self.column_at(self.at + 2)?;
        let right = self.column_at(self.at + 3)?;
        let k = Comparison {
            op,
            left,
            right: right + 1,
            number: 0,
        };
        Ok(Addition::Part(Part::Compared(k)))
    }

    // What a command adds that has passed the checks 2 to 6: so its operands are there, each at its place, here and in what is called.
    pub fn enter(&self, c: Command) -> Result<Addition, Fault>
        requires { (follows self.now.state c ≡ true) × (self.now.at + 1 + operands c ≤ length self.now.bytes) }
        ensures { result ≡ judged_at self.now c }
    {
        match c {
            Command::NextTable => Ok(Addition::Table),
            Command::NextColumn => self.next_column(),
            Command::TableUsed => self.table_used(),
            Command::OutputColumn => self.output_column(),
            Command::NextClause => Ok(Addition::Part(Part::Clause)),
            Command::NumberCompared => self.number_compared(),
            Command::ColumnCompared => self.column_compared(),
            Command::ExtractBegins | Command::QueryBegins | Command::End => Ok(Addition::Nothing),
        }
    }

    // Takes a command that has passed the checks 2 to 6, and goes on to the next: whether the job ends with it, or its fault. The record is
    // written in place.
    pub fn go_on(&mut self, c: Command) -> Result<bool, Fault>
        requires { Ready self.old c }
        ensures { (refused_at self.old.at result, self.new) ≡ stepped_of self.old (taken_at self.old c) }
    {
        let x = self.enter(c)?;
        add(&mut self.job, self.in_query, x);
        self.last = self.bytes[self.at];
        self.at += 1 + operands(c);
        self.in_query = self.in_query || matches!(c, Command::QueryBegins);
        Ok(matches!(c, Command::End))
    }
}

// ---- What a command adds

// Adds to the record what a command adds.
fn add(job: &mut Job, in_query: bool, x: Addition)
    requires { Fits in_query job.old x }
    ensures { job.new ≡ grown in_query job.old x }
{
    match x {
        Addition::Table => job.declared.tables += 1,
        Addition::Column(k) => {
            let declared = &mut job.declared;
            declared.columns[declared.width] = k;
            declared.width += 1;
        }
        Addition::Part(p) => if in_query {
            put(&mut job.query, p);
        } else {
            put(&mut job.extract, p);
        },
        Addition::Nothing => {}
    }
}

// Puts a part into an expression, behind the others of its kind. The counts are a record's, which any caller lends: no list type's.
fn put(e: &mut Expression, p: Part)
    requires { PartFits e.old p }
    ensures { e.new ≡ part_more e.old p }
{
    match p {
        Part::Used(t) => {
            e.used[e.tables] = t;
            e.tables += 1;
        }
        Part::Output(c) => {
            e.outputs[e.width] = c;
            e.width += 1;
        }
        // Past the last clause there are empty ones.
        Part::Clause => e.condition.size += 1,
        Part::Compared(k) => {
            let clause = &mut e.condition.clauses[e.condition.size - 1];
            clause.comparisons[clause.size] = k;
            clause.size += 1;
        }
    }
}
