//! Names by tokens, each once.

ghost use Rattle.std.specs.Prelude.{◌≡◌, ◌++◌, ◌∷◌, [], true, if◌then◌else◌, IfOk, OnOk};
ghost use Rattle.std.specs.Str.{bytes_eq};
ghost use Rattle.ftn_base.specs.Accessible.{once};
ghost use Rattle.ftn_tree.specs.Sayings.{declares};
ghost use Rattle.scope_bind.specs.steps.Owned as steps;

use decl_table::forms::name_at;
use decl_table::saying::Saying;
use decl_table::seen::{Seen, is_first};
use ftn_base::NoMemory;
use ftn_tree::{FileTree, Mention};
use indexmap::IndexSet;
use std::alloc::Global;

/// The tokens of sayings.
pub(crate) fn said_tokens(alloc: Global, said: &[Saying<'_>]) -> Result<Vec<u32>, NoMemory>
    ensures { IfOk result (λ tokens. tokens.items ≡ steps.tokens_of (λ s. true) said.now) }
{
    let mut tokens = Vec::new(alloc);
    for s in said {
        tokens.push(s.said.token)?;
    }
    Ok(tokens)
}

/// The tokens of sayings that declare.
pub(crate) fn declaring_tokens(alloc: Global, said: &[Saying<'_>]) -> Result<Vec<u32>, NoMemory>
    ensures { IfOk result (λ tokens. tokens.items ≡ steps.tokens_of declares said.now) }
{
    let mut tokens = Vec::new(alloc);
    for s in said {
        if s.is_declaring() {
            tokens.push(s.said.token)?;
        }
    }
    Ok(tokens)
}

/// The tokens of mentions.
pub(crate) fn mentioned_tokens(alloc: Global, mentions: &[Mention]) -> Result<Vec<u32>, NoMemory>
    ensures { IfOk result (λ tokens. tokens.items ≡ steps.mentioned mentions.now) }
{
    let mut tokens = Vec::new(alloc);
    for mention in mentions {
        tokens.push(mention.token)?;
    }
    Ok(tokens)
}

/// Adds a number where it counts.
pub(crate) fn push_if(counts: bool, number: u32, made: &mut Vec<u32>) -> Result<(), NoMemory>
    ensures { OnOk result (made.new.items ≡ made.old.items ++ (if counts then number ∷ [] else [])) }
{
    if counts {
        made.push(number)?;
    }
    Ok(())
}

/// Those of these tokens of a file that have a name for the first time.
pub(crate) fn distinct(
    alloc: Global,
    files: &[FileTree],
    file: u32,
    tokens: &[u32],
) -> Result<Vec<u32>, NoMemory>
    ensures { IfOk result (λ made. steps.names_at files.now file made.items ≡ once bytes_eq (steps.names_at files.now file tokens.now)) }
{
    let mut seen: Seen<'_> = IndexSet::new(alloc);
    let mut made = Vec::new(alloc);
    for token in tokens {
        let first = is_first(&mut seen, name_at(files, file, *token))?;
        push_if(first, *token, &mut made)?;
    }
    Ok(made)
}
