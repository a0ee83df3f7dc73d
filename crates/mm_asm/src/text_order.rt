//! The targets of a draft, in the order of the text.

ghost use Rattle.std.specs.Prelude.{◌≡◌, ◌++◌, IfOk, OnOk, IsOkUnless};
ghost use Rattle.std.specs.List.{flat_map};
ghost use Rattle.mm_asm.specs.Names.{constant_uses, word_uses, register_uses, segment_uses, thread_uses, merge};
ghost use Rattle.mm_asm.specs.Names.{uses_of};

use crate::AsmError;
use mm_draft::{Draft, Register, Segment, Source, Thread, Word};
use mm_line::{Constant, Content, Target};
use std::alloc::Global;
use std::marker::Model;

/// A target, and the line that it is on.
#[derive(Drop)]
pub(crate) struct Use<'d, 'a> {
    pub target: &'d Target<'a>,
    pub source: Source,
}

impl<'d, 'a> Model for Use<'d, 'a> {
    ghost use Rattle.mm_asm.specs.Names.{Use as UseValue};

    ghost Value = { UseValue };

    ghost view = { λ u. record { target = u.target.now; source = u.source } };
}

impl<'d, 'a> Use<'d, 'a> {
    ghost use Rattle.std.specs.Prelude.{◌≡◌};

    /// A copy of the use.
    fn again(&self) -> Use<'d, 'a>
        ensures { result ≡ self.now }
    {
        Use {
            target: self.target,
            source: self.source,
        }
    }
}

/// All targets of a draft, in the order of the text.
#[tactic(auto, unfolding(crate::specs::Names::uses_of))]
pub(crate) fn uses<'d, 'a>(
    alloc: Global,
    draft: &'d Draft<'a>,
) -> Result<Vec<Use<'d, 'a>>, AsmError>
    ensures uses { IfOk result (λ v. v.items ≡ uses_of draft.now) }
    ensures memory { IsOkUnless result AsmError.NoMemory }
{
    let words = words_uses(alloc, draft.segments())?;
    let threads = threads_uses(alloc, draft.threads())?;
    merge(alloc, &words, &threads)
}

/// The targets of the words of segments.
fn words_uses<'d, 'a>(
    alloc: Global,
    segments: &'d [Segment<'a>],
) -> Result<Vec<Use<'d, 'a>>, AsmError>
    ensures uses { IfOk result (λ v. v.items ≡ flat_map segment_uses segments.now) }
    ensures memory { IsOkUnless result AsmError.NoMemory }
{
    let mut uses = Vec::new(alloc);
    for segment in segments {
        push_words(&mut uses, &segment.words)?;
    }
    Ok(uses)
}

/// The targets of threads and their registers.
fn threads_uses<'d, 'a>(
    alloc: Global,
    threads: &'d [Thread<'a>],
) -> Result<Vec<Use<'d, 'a>>, AsmError>
    ensures uses { IfOk result (λ v. v.items ≡ flat_map thread_uses threads.now) }
    ensures memory { IsOkUnless result AsmError.NoMemory }
{
    let mut uses = Vec::new(alloc);
    for thread in threads {
        push_thread(&mut uses, thread)?;
    }
    Ok(uses)
}

/// Adds the targets of words.
fn push_words<'d, 'a>(uses: &mut Vec<Use<'d, 'a>>, words: &'d [Word<'a>]) -> Result<(), AsmError>
    ensures uses { OnOk result (uses.new.items ≡ uses.old.items ++ flat_map word_uses words.now) }
    ensures memory { IsOkUnless result AsmError.NoMemory }
{
    for word in words {
        push_word(uses, word)?;
    }
    Ok(())
}

/// Adds the target of a word.
fn push_word<'d, 'a>(uses: &mut Vec<Use<'d, 'a>>, word: &'d Word<'a>) -> Result<(), AsmError>
    ensures uses { OnOk result (uses.new.items ≡ uses.old.items ++ word_uses word.now) }
    ensures memory { IsOkUnless result AsmError.NoMemory }
{
    match &word.content {
        Content::Constant(constant) => push_constant(uses, constant, word.source),
        Content::Code(_) => Ok(()),
    }
}

/// Adds the target of a constant.
fn push_constant<'d, 'a>(
    uses: &mut Vec<Use<'d, 'a>>,
    constant: &'d Constant<'a>,
    source: Source,
) -> Result<(), AsmError>
    ensures uses { OnOk result (uses.new.items ≡ uses.old.items ++ constant_uses source constant.now) }
    ensures memory { IsOkUnless result AsmError.NoMemory }
{
    match constant {
        Constant::Integer(_) => Ok(()),
        Constant::Pointer { target, .. } => {
            uses.push(Use { target, source })?;
            Ok(())
        }
    }
}

/// Adds the targets of a thread.
fn push_thread<'d, 'a>(uses: &mut Vec<Use<'d, 'a>>, thread: &'d Thread<'a>) -> Result<(), AsmError>
    ensures uses { OnOk result (uses.new.items ≡ uses.old.items ++ thread_uses thread.now) }
    ensures memory { IsOkUnless result AsmError.NoMemory }
{
    uses.push(Use {
        target: &thread.target,
        source: thread.source,
    })?;
    push_registers(uses, &thread.registers)
}

/// Adds the targets of registers.
fn push_registers<'d, 'a>(
    uses: &mut Vec<Use<'d, 'a>>,
    registers: &'d [Register<'a>],
) -> Result<(), AsmError>
    ensures uses { OnOk result (uses.new.items ≡ uses.old.items ++ flat_map register_uses registers.now) }
    ensures memory { IsOkUnless result AsmError.NoMemory }
{
    for register in registers {
        push_constant(uses, &register.value, register.source)?;
    }
    Ok(())
}

/// Two lists, each in the order of its lines, merged in that order.
fn merge<'d, 'a>(
    alloc: Global,
    xs: &[Use<'d, 'a>],
    ys: &[Use<'d, 'a>],
) -> Result<Vec<Use<'d, 'a>>, AsmError>
    ensures uses { IfOk result (λ v. v.items ≡ merge xs.now ys.now) }
    ensures memory { IsOkUnless result AsmError.NoMemory }
{
    let mut merged = Vec::new(alloc);
    let mut i = 0;
    let mut j = 0;
    while i < xs.len() && j < ys.len() {
        let x = &xs[i];
        let y = &ys[j];
        if y.source.line < x.source.line {
            merged.push(y.again())?;
            j += 1;
        } else {
            merged.push(x.again())?;
            i += 1;
        }
    }
    push_all(&mut merged, &xs[i..])?;
    push_all(&mut merged, &ys[j..])?;
    Ok(merged)
}

/// Adds all of these uses.
fn push_all<'d, 'a>(uses: &mut Vec<Use<'d, 'a>>, more: &[Use<'d, 'a>]) -> Result<(), AsmError>
    ensures uses { OnOk result (uses.new.items ≡ uses.old.items ++ more.now) }
    ensures memory { IsOkUnless result AsmError.NoMemory }
{
    for u in more {
        uses.push(u.again())?;
    }
    Ok(())
}
