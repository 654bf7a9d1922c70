// Job bytes: writing a record as bytes.
#![tactic(auto)]

ghost use Rattle.std.specs.Prelude.{◌≡◌, [], ◌∷◌, ◌++◌, ◌≤◌, min, length, drop};
ghost use Rattle.base.specs.Bytes.{Room, Puts};
ghost use Rattle.words.specs.Word.{encoded};
ghost use Rattle.job.specs.Meaning.{meaning_of};
ghost use Rattle.layout.specs.Commands.{start_bytes, number_of_command};
ghost use Rattle.layout.specs.Writing.{job_bytes};
ghost use Rattle.writer.specs.Parts.{columns_in, column_in, table_bytes, tables_bytes};
ghost use Rattle.writer.specs.Parts.{each_bytes, comparison_in, clause_bytes, condition_bytes, expression_bytes};

use base::Output;
use job::{Clause, Column, Columns, Comparison, Condition, Expression, Job};
use layout::Command;
use words::Op;

// The most bytes that a job has.
pub const MAX_JOB_BYTES: usize = 579;

// A value, in four bytes.
fn put_value(out: &mut Output, v: i32)
    requires { Room out.old (encoded 4 v) }
    ensures { Puts out.old out.new (encoded 4 v) }
{
    out.put_all(&v.to_le_bytes());
}

// A column where it is of table t, else nothing.
fn put_column(out: &mut Output, c: &Column, t: usize)
    requires { Room out.old (column_in t c.now) }
    ensures { Puts out.old out.new (column_in t c.now) }
{
    if usize::from(c.table) == t {
        out.put(u8::from(Command::NextColumn));
        put_value(out, c.bounds.lo);
        put_value(out, c.bounds.hi);
    }
}

// Table t: those of the columns that are its own.
fn put_table(out: &mut Output, k: &Columns, t: usize)
    requires { Room out.old (table_bytes (columns_in k.now) t) }
    ensures { Puts out.old out.new (table_bytes (columns_in k.now) t) }
{
    out.put(u8::from(Command::NextTable));
    for c in k.columns() {
        put_column(out, c, t);
    }
}

fn put_tables(out: &mut Output, k: &Columns)
    requires { Room out.old (tables_bytes k.now) }
    ensures { Puts out.old out.new (tables_bytes k.now) }
{
    for t in 0..k.tables.min(Job::TABLES) {
        put_table(out, k, t);
    }
}

// A command with each element of l.
fn put_each(out: &mut Output, command: Command, l: &[u8])
    requires { Room out.old (each_bytes (number_of_command command) l.now) }
    ensures { Puts out.old out.new (each_bytes (number_of_command command) l.now) }
{
    for x in l {
        out.put_all(&[u8::from(command), *x]);
    }
}

fn put_comparison(out: &mut Output, k: &Comparison)
    requires { Room out.old (comparison_in k.now) }
    ensures { Puts out.old out.new (comparison_in k.now) }
{
    // above 4, that is 4, since a record may have any number
    let op = u8::from(Op::at(k.op));
    if k.right == 0 {
        out.put_all(&[u8::from(Command::NumberCompared), op, k.left]);
        put_value(out, k.number);
    } else {
        out.put_all(&[u8::from(Command::ColumnCompared), op, k.left, k.right - 1]);
    }
}

fn put_clause(out: &mut Output, c: &Clause)
    requires { Room out.old (clause_bytes c.now) }
    ensures { Puts out.old out.new (clause_bytes c.now) }
{
    out.put(u8::from(Command::NextClause));
    for k in c.comparisons() {
        put_comparison(out, k);
    }
}

fn put_condition(out: &mut Output, k: &Condition)
    requires { Room out.old (condition_bytes k.now) }
    ensures { Puts out.old out.new (condition_bytes k.now) }
{
    for c in k.clauses() {
        put_clause(out, c);
    }
}

// An expression, behind the command that it begins with.
fn put_expression(out: &mut Output, command: Command, e: &Expression)
    requires { Room out.old (number_of_command command ∷ expression_bytes e.now) }
    ensures { Puts out.old out.new (number_of_command command ∷ expression_bytes e.now) }
{
    out.put(u8::from(command));
    put_each(out, Command::TableUsed, e.used_tables());
    put_each(out, Command::OutputColumn, e.output_columns());
    put_condition(out, &e.condition);
}

// The bytes of the job that a record stands for, and how many they are. Any record stands for one.
pub fn write(job: Job, out: &mut [u8]) -> usize
    requires { 579 ≤ length out.old }
    ensures count { result ≡ length (job_bytes (meaning_of job)) }
    ensures bytes { out.new ≡ job_bytes (meaning_of job) ++ drop (length (job_bytes (meaning_of job))) out.old }
{
    let mut to = Output { bytes: out, at: 0 };
    to.put_all(&layout::START);
    put_tables(&mut to, &job.declared);
    put_expression(&mut to, Command::ExtractBegins, &job.extract);
    put_expression(&mut to, Command::QueryBegins, &job.query);
    to.put(u8::from(Command::End));
    to.at
}
