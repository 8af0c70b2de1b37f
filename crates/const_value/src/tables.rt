//! What the names at the tokens of a project denote.

ghost use Rattle.std.specs.Prelude.{◌≡◌, None, length, replicate, IfOk, OnOk};
ghost use Rattle.const_value.specs.steps.Tables as steps;

use ftn_base::{EntityId, NoMemory};
use ftn_tree::{FileTree, Form, Mention};
use std::alloc::Global;
use std::marker::Model;

/// For each token of a file the entity that it denotes, where it is a name.
#[derive(Drop)]
pub struct TokenRow {
    of: Vec<Option<u32>>,
}

impl Model for TokenRow {
    ghost use Rattle.std.specs.Prelude.{ℕ, List, Option};

    ghost Value = { List (Option ℕ) };

    ghost view = { λ a. a.of.items };
}

impl TokenRow {
    fn empty(alloc: Global, count: usize) -> Result<TokenRow, NoMemory>
        ensures { IfOk result (λ row. row ≡ replicate count None) }
    {
        let of = vec![in alloc; None; count]?;
        Ok(TokenRow { of })
    }

    /// By the numbers of tokens.
    pub fn row(&self) -> &[Option<u32>]
        ensures { result.now ≡ self.now }
    {
        self.of.as_slice()
    }

    /// Puts the entity at a token where none is.
    fn put(&mut self, token: u32, entity: u32)
        ensures { self.new ≡ steps.put self.old token entity }
    {
        let at = token as usize;
        if at < self.of.len() && self.of[at].is_none() {
            self.of[at] = Some(entity);
        }
    }
}

/// Puts what the occurrence with that number denotes at the token of a mention.
fn put_at(mention: &Mention, denotes: &[EntityId], at: usize, row: &mut TokenRow)
    ensures { row.new ≡ steps.put_at row.old mention.now denotes.now at }
{
    if let Some(entity) = denotes.get(at) {
        row.put(mention.token, entity.0);
    }
}

fn put_all(mentions: &[Mention], denotes: &[EntityId], row: &mut TokenRow)
    ensures { row.new ≡ steps.put_all 0 row.old mentions.now denotes.now }
{
    let mut at = 0;
    for mention in mentions {
        put_at(mention, denotes, at, row);
        at += 1;
    }
}

/// The names in the statements of a file.
fn mentions_in(alloc: Global, tree: &FileTree) -> Result<Vec<Mention>, NoMemory>
    ensures { IfOk result (λ mentions. mentions.items ≡ steps.mentions_in tree.now) }
{
    let mut mentions = Vec::new(alloc);
    for statement in tree.statements.as_slice() {
        let form: &Form = &statement.form;
        form.push_mentions(alloc, &mut mentions)?;
    }
    Ok(mentions)
}

/// What is left of a list without that many at its front.
fn rest_of(denotes: &[EntityId], count: usize) -> &[EntityId]
    ensures { result.now ≡ steps.rest_of denotes.now count }
{
    if count <= denotes.len() {
        &denotes[count..]
    } else {
        &[]
    }
}

/// For each file what the names at its tokens denote, from what the occurrences of names denote in their order.
pub fn token_rows(
    alloc: Global,
    files: &[FileTree],
    denotes: &[EntityId],
) -> Result<Vec<TokenRow>, NoMemory>
    ensures { IfOk result (λ rows. rows.items ≡ steps.rows_of files.now denotes.now) }
{
    let mut rows = Vec::new(alloc);
    let mut rest = denotes;
    for tree in files {
        let mentions = mentions_in(alloc, tree)?;
        let mut row = TokenRow::empty(alloc, tree.tokens.items.len())?;
        put_all(&mentions, rest, &mut row);
        rows.push(row)?;
        rest = rest_of(rest, mentions.len());
    }
    Ok(rows)
}
