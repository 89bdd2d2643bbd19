//! Writes the script, block by block.
ghost use Rattle.std.specs.Prelude.{◌≡◌, ◌≤◌, ◌+◌, ◌++◌, OnOk, IfOk};
ghost use Rattle.ct_gen.specs.Script as spec;

use crate::error::GenError;
use std::alloc::Global;

/// The script with `n` blocks, for `n` from 1 to 2,000.
///
/// It declares a datatype `E` with the constructors `a` and `b` and the codatatype of streams over
/// it. Block i then asserts, in a level of its own, that `x` is 1 + (i mod 13) cells of `a` before
/// `x`, that `y` is 1 + (i mod 7) cells before `y`, the first of them of `b` where 3 divides i, and
/// that they differ. So the check of block i is satisfiable exactly where 3 divides i.
///
/// The only error is out of memory.
pub fn gen_script(alloc: Global, n: u64) -> Result<Vec<u8>, GenError>
    requires some { 1 ≤ n }
    requires few { n ≤ 2000 }
    ensures text { IfOk result (λ text. text.items ≡ spec.script n) }
{
    let mut out = Vec::new(alloc);
    write_declarations(&mut out)?;
    for i in 0..n {
        write_block(i + 1, &mut out)?;
    }
    Ok(out)
}

// The two lines that declare the sorts.
#[tactic(auto, unfolding(crate::specs::Script::declarations))]
fn write_declarations(out: &mut Vec<u8>) -> Result<(), GenError>
    ensures ok { OnOk result (out.new.items ≡ out.old.items ++ spec.declarations) }
{
    out.extend_from_slice(b"(declare-datatypes ((E 0)) (((a) (b))))\n")?;
    out.extend_from_slice(
        b"(declare-codatatypes ((Stream 0)) (((scons (shead E) (stail Stream)))))\n",
    )?;
    Ok(())
}

// The eight lines of a block.
#[tactic(auto, unfolding(crate::specs::Script::block))]
fn write_block(i: u64, out: &mut Vec<u8>) -> Result<(), GenError>
    ensures ok { OnOk result (out.new.items ≡ out.old.items ++ spec.block i) }
{
    write_block_begin(out)?;
    write_equations(i, out)?;
    write_block_end(out)
}

// The lines of a block before its equations.
#[tactic(auto, unfolding(crate::specs::Script::block_begin))]
fn write_block_begin(out: &mut Vec<u8>) -> Result<(), GenError>
    ensures ok { OnOk result (out.new.items ≡ out.old.items ++ spec.block_begin) }
{
    Ok(out.extend_from_slice(b"(push 1)\n(declare-const x Stream)\n(declare-const y Stream)\n")?)
}

// The lines of a block after its equations.
#[tactic(auto, unfolding(crate::specs::Script::block_end))]
fn write_block_end(out: &mut Vec<u8>) -> Result<(), GenError>
    ensures ok { OnOk result (out.new.items ≡ out.old.items ++ spec.block_end) }
{
    Ok(out.extend_from_slice(b"(assert (not (= x y)))\n(check-sat)\n(pop 1)\n")?)
}

// The assertions that `x` and `y` equal their streams.
#[tactic(auto, unfolding(crate::specs::Script::equations))]
fn write_equations(i: u64, out: &mut Vec<u8>) -> Result<(), GenError>
    ensures ok { OnOk result (out.new.items ≡ out.old.items ++ spec.equations i) }
{
    write_first_equation(i, out)?;
    write_second_equation(i, out)
}

// The assertion that `x` equals its stream.
#[tactic(auto, unfolding(crate::specs::Script::first_equation))]
fn write_first_equation(i: u64, out: &mut Vec<u8>) -> Result<(), GenError>
    ensures ok { OnOk result (out.new.items ≡ out.old.items ++ spec.first_equation i) }
{
    out.extend_from_slice(b"(assert (= x ")?;
    write_cells(i % 13 + 1, b"x", out)?;
    Ok(out.extend_from_slice(b"))\n")?)
}

// The assertion that `y` equals its stream.
#[tactic(auto, unfolding(crate::specs::Script::second_equation))]
fn write_second_equation(i: u64, out: &mut Vec<u8>) -> Result<(), GenError>
    ensures ok { OnOk result (out.new.items ≡ out.old.items ++ spec.second_equation i) }
{
    out.extend_from_slice(b"(assert (= y ")?;
    write_second_stream(i, out)?;
    Ok(out.extend_from_slice(b"))\n")?)
}

// The stream that `y` equals: cells of `a`, but the first of `b` in every third block.
fn write_second_stream(i: u64, out: &mut Vec<u8>) -> Result<(), GenError>
    ensures ok { OnOk result (out.new.items ≡ out.old.items ++ spec.second_stream i) }
{
    out.extend_from_slice(b"(scons ")?;
    out.push(if i % 3 == 0 { b'b' } else { b'a' })?;
    out.push(b' ')?;
    write_cells(i % 7, b"y", out)?;
    Ok(out.push(b')')?)
}

// A stream of so many cells of `a`, and then the variable.
fn write_cells(count: u64, variable: &[u8], out: &mut Vec<u8>) -> Result<(), GenError>
    ensures ok { OnOk result (out.new.items ≡ out.old.items ++ spec.cells count variable.now) }
{
    write_repeated(count, b"(scons a ", out)?;
    out.extend_from_slice(variable)?;
    write_repeated(count, b")", out)
}

// The text so many times in a row.
fn write_repeated(count: u64, text: &[u8], out: &mut Vec<u8>) -> Result<(), GenError>
    ensures ok { OnOk result (out.new.items ≡ out.old.items ++ spec.repeated count text.now) }
{
    for _ in 0..count {
        out.extend_from_slice(text)?;
    }
    Ok(())
}
