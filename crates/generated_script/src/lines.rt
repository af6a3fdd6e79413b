//! The lines of a script, each with its end. If memory runs out, what was written is of no use.
#![tactic(auto, using(bl_syntax::proofs::BeginsWithLemmas::writing), unfolding(crate::specs::Lines::at_line, crate::specs::Lines::user_line, crate::specs::Lines::admin_line, crate::specs::Lines::root_line, crate::specs::Lines::root_proof_line, crate::specs::Lines::owner_line, crate::specs::Lines::govern_line, crate::specs::Lines::owner_proof_line, crate::specs::Lines::govern_proof_line, crate::specs::Lines::create_line, crate::specs::Lines::write_line, crate::specs::Lines::chown_line))]

ghost use Rattle.std.specs.Prelude.{◌≡◌, ◌<◌, ◌++◌, OnOk};
ghost use Rattle.generated_script.specs.Lines.{admin_line, at_line, chown_line, create_line, digit, eight_digits, govern_line, govern_proof_line, owner_line, owner_proof_line, procap_end, root_line, root_proof_line, user_goal, user_line, write_line};

use bl_syntax::decimal::{put_counted, put_text};
use bl_syntax::{Bytes, NoMemory};

/// Writes that the clock is set.
pub fn put_at(out: &mut Bytes, second: u64) -> Result<(), NoMemory>
    ensures { OnOk result (out.new ≡ out.old ++ at_line second) }
{
    put_counted(out, "at ", second)?;
    put_text(out, "\n")
}

/// Writes that a user is the caller from now on.
pub fn put_user(out: &mut Bytes, user: u64) -> Result<(), NoMemory>
    ensures { OnOk result (out.new ≡ out.old ++ user_line user) }
{
    put_counted(out, "as u", user)?;
    put_text(out, "\n")
}

/// Writes that `admin` is the caller from now on.
pub fn put_admin(out: &mut Bytes) -> Result<(), NoMemory>
    ensures { OnOk result (out.new ≡ out.old ++ admin_line) }
{
    put_text(out, "as admin\n")
}

/// Writes that `admin` lets a user write the root.
pub fn put_root(out: &mut Bytes, user: u64) -> Result<(), NoMemory>
    ensures { OnOk result (out.new ≡ out.old ++ root_line user) }
{
    put_counted(out, "register - admin says may(u", user)?;
    put_text(out, ",#1,write) from 0 to 100000\n")
}

/// Writes the proof that the user may.
pub fn put_root_proof(out: &mut Bytes, user: u64) -> Result<(), NoMemory>
    requires { user < 8 }
    ensures { OnOk result (out.new ≡ out.old ++ root_proof_line user) }
{
    put_counted(out, "verify u", user)?;
    put_counted(out, " #1 write ", user + 1)?;
    put_text(out, " saysR(claim(0,init(1)))\n")
}

/// Writes that `admin` lets each owner of a file write it.
pub fn put_owner(out: &mut Bytes) -> Result<(), NoMemory>
    ensures { OnOk result (out.new ≡ out.old ++ owner_line) }
{
    put_text(
        out,
        "register - admin says forall F:file. forall K:principal. owner(F,K) => may(K,F,write) from 0 to 100000\n",
    )
}

/// Writes that `admin` lets itself govern each file.
pub fn put_govern(out: &mut Bytes) -> Result<(), NoMemory>
    ensures { OnOk result (out.new ≡ out.old ++ govern_line) }
{
    put_text(
        out,
        "register - admin says forall F:file. may(admin,F,govern) from 0 to 100000\n",
    )
}

// Writes the goal that a user may do something with a file.
#[tactic(auto, using(bl_syntax::proofs::BeginsWithLemmas::writing), unfolding(crate::specs::Lines::user_goal))]
fn put_user_goal(out: &mut Bytes, user: u64, file: u64) -> Result<(), NoMemory>
    ensures { OnOk result (out.new ≡ out.old ++ user_goal user file) }
{
    put_counted(out, "verify u", user)?;
    put_counted(out, " #", file)
}

/// Writes the proof that a user may write a file, if it owns the file.
pub fn put_owner_proof(out: &mut Bytes, user: u64, file: u64) -> Result<(), NoMemory>
    ensures { OnOk result (out.new ≡ out.old ++ owner_proof_line user file) }
{
    put_user_goal(out, user, file)?;
    put_counted(out, " write 9 saysR(claim(0,forallL(1,#", file)?;
    put_counted(out, ",forallL(2,u", user)?;
    put_text(out, ",impL(3,ctime,ctime,interR,init(4))))))\n")
}

/// Writes the proof that `admin` may govern a file.
pub fn put_govern_proof(out: &mut Bytes, file: u64) -> Result<(), NoMemory>
    ensures { OnOk result (out.new ≡ out.old ++ govern_proof_line file) }
{
    put_counted(out, "verify admin #", file)?;
    put_counted(out, " govern 10 saysR(claim(0,forallL(1,#", file)?;
    put_text(out, ",init(2))))\n")
}

// Writes the procap of an issue, at the end of a line.
#[tactic(auto, using(bl_syntax::proofs::BeginsWithLemmas::writing), unfolding(crate::specs::Lines::procap_end))]
fn put_procap_end(out: &mut Bytes, issue: u64) -> Result<(), NoMemory>
    ensures { OnOk result (out.new ≡ out.old ++ procap_end issue) }
{
    put_counted(out, " @", issue)?;
    put_text(out, "\n")
}

/// Writes that a file is made in the root, whose name is `f` and a number.
pub fn put_create(out: &mut Bytes, number: u64, issue: u64) -> Result<(), NoMemory>
    ensures { OnOk result (out.new ≡ out.old ++ create_line number issue) }
{
    put_counted(out, "do create #1 f", number)?;
    put_procap_end(out, issue)
}

// The last digit of a number.
#[tactic(auto, unfolding(crate::specs::Lines::digit))]
fn digit(number: u64) -> u8
    ensures { result ≡ digit number }
{
    b'0' + (number % 10) as u8
}

// Writes a number in eight digits.
#[tactic(auto, unfolding(crate::specs::Lines::eight_digits))]
fn put_eight_digits(out: &mut Bytes, number: u64) -> Result<(), NoMemory>
    ensures { OnOk result (out.new ≡ out.old ++ eight_digits number) }
{
    out.extend(&[
        digit(number / 10_000_000),
        digit(number / 1_000_000),
        digit(number / 100_000),
        digit(number / 10_000),
        digit(number / 1_000),
        digit(number / 100),
        digit(number / 10),
        digit(number),
    ])
}

/// Writes that a number is written into a file.
pub fn put_write(out: &mut Bytes, file: u64, number: u64, issue: u64) -> Result<(), NoMemory>
    ensures { OnOk result (out.new ≡ out.old ++ write_line file number issue) }
{
    put_counted(out, "do write #", file)?;
    put_text(out, " 0 ")?;
    put_eight_digits(out, number)?;
    put_procap_end(out, issue)
}

/// Writes that a file is given to a user.
pub fn put_chown(out: &mut Bytes, file: u64, user: u64, issue: u64) -> Result<(), NoMemory>
    ensures { OnOk result (out.new ≡ out.old ++ chown_line file user issue) }
{
    put_counted(out, "do chown #", file)?;
    put_counted(out, " u", user)?;
    put_procap_end(out, issue)
}
