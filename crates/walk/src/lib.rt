// Whole files: the order of the records, what one says of another, and the lent table.
#![tactic(auto)]

pub mod kept;
pub mod order;
pub mod records;
pub mod referring;
pub mod words;

ghost use Rattle.std.specs.Prelude.{◌≡◌, true, ◌≤◌, length};
ghost use Rattle.rules.specs.Calls.{form_answer, references_outcome};
ghost use Rattle.rules.specs.Chapter4.{chapter4};
ghost use Rattle.kinds.specs.Values.{checked_of, fault_of};
ghost use Rattle.walk.specs.Words.{no_words};
ghost use Rattle.walk.specs.Walking.{Walked, settled_of, table_after};
ghost use Rattle.walk.specs.Promise.{FormPromised, ReferencesPromised, together, Together};

use crate::order::{LAST_JOB, ORDER};
use crate::records::walk_records;
use crate::referring::refer_records;
use crate::words::clear;
use kinds::Fault;

// What form and references say of one file.
#[derive(Clone, Copy)]
struct Both {
    form: Result<[u32; 14], Fault>,
    references: Result<(), Fault>,
}

// The walk by the order of Chapter 4, and by the table of its quick test.
fn walk_file(file: &[u8], words: &mut [u32]) -> Result<[u32; 14], Fault>
    requires { length words.old ≤ 12_000 }
    ensures { Walked chapter4 file.now result words.old words.new }
{
    walk_records(file, words, &ORDER, LAST_JOB)
}

// 14 is all that is said of a form that is not good; 11 and 12 are judged only where it is.
fn refer_walked(file: &[u8], words: &[u32], form: Result<[u32; 14], Fault>) -> Result<(), Fault>
    requires { Walked chapter4 file.now form no_words words.now }
    ensures { result ≡ fault_of (references_outcome true file.now) }
{
    if form.is_err() {
        return Err(Fault::new(14, 0, 0));
    }
    refer_records(file, words)
}

// A refusal leaves zeros.
fn settle(words: &mut [u32], references: Result<(), Fault>)
    requires { length words.old ≡ 12_000 }
    ensures { words.new ≡ settled_of references words.old }
{
    if references.is_err() {
        clear(words);
    }
}

// Both answers from one walk: a line judged for the one is not judged again for the other.
fn judge_both(file: &[u8], words: &mut [u32]) -> Both
    requires { length words.old ≡ 12_000 }
    ensures form { result.form ≡ checked_of (form_answer file.now) }
    ensures references { result.references ≡ fault_of (references_outcome true file.now) }
    ensures words { words.new ≡ table_after file.now }
{
    clear(words);
    let form = walk_file(file, words);
    let references = refer_walked(file, words, form);
    settle(words, references);
    Both { form, references }
}

// Form and order with a count of each kind of record, or the first fault of these. There is no table to fill.
pub fn form(file: &[u8]) -> Result<[u32; 14], Fault>
    ensures { FormPromised file.now result }
{
    let mut none = [0u32; 0];
    walk_file(file, &mut none)
}

// References and the lent table. The form is judged here too, so that nobody can skip it.
pub fn references(file: &[u8], table: &mut [u32]) -> Result<(), Fault>
    ensures { ReferencesPromised file.now table.old result table.new }
{
    if table.len() < 12_000 {
        return Err(Fault::new(1, 0, 0));
    }
    let both = judge_both(file, &mut table[0..12_000]);
    both.references
}

// The first fault in the paper's order: 14 stands for the form's.
fn together(both: Both) -> Result<[u32; 14], Fault>
    ensures { result ≡ together both.form both.references }
{
    match both.references {
        Ok(()) => both.form,
        Err(fault) => {
            if fault.number == 14 {
                return both.form;
            }
            Err(fault)
        }
    }
}

// What both calls say together, for rewrite, the sheet and every call that judges a file on its way: table and faults as 01 has them, and
// never 14.
pub fn judge(file: &[u8], table: &mut [u32]) -> Result<[u32; 14], Fault>
    ensures { Together file.now table.old result table.new }
{
    if table.len() < 12_000 {
        return Err(Fault::new(1, 0, 0));
    }
    let both = judge_both(file, &mut table[0..12_000]);
    together(both)
}
