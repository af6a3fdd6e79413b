//! A history under audit, with its papers and where equal ones are found.

ghost use Rattle.std.specs.Prelude.{◌≡◌, IfOk};
ghost use Rattle.pcfs_audit.specs.Dossier.{IsDossier};
ghost use Rattle.pcfs_audit.specs.Firsts.{grant_digests};
ghost use Rattle.pcfs_audit.specs.Papers.{ArePapers, shown};

use crate::digests::statement_digests;
use crate::firsts::{Firsts, firsts_of};
use crate::papers::Papers;
use access_history::Base;
use bl_syntax::NoMemory;
use journal_records::Event;
use procap::SealKey;
use std::alloc::Global;

/// The events over a base, the key under which procaps are sealed, their papers, and for the digest of each statement and
/// each grant the first place that has it.
#[derive(Drop)]
pub struct Dossier<'a> {
    pub key: SealKey,
    pub base: &'a Base,
    pub events: &'a [Event],
    pub papers: Papers<'a>,
    pub statement_firsts: Firsts,
    pub grant_firsts: Firsts,
}

/// The dossier with these papers, whose grants have these digests.
pub fn dossier_of<'a>(
    alloc: Global,
    key: SealKey,
    base: &'a Base,
    events: &'a [Event],
    papers: Papers<'a>,
    digests: &[u64],
) -> Result<Dossier<'a>, NoMemory>
    requires papers { ArePapers base.now events.now papers }
    requires digests { digests.now ≡ grant_digests key (shown papers.grants.items) }
    ensures dossier { IfOk result IsDossier }
    ensures key { IfOk result (λ dossier. dossier.key ≡ key) }
    ensures base { IfOk result (λ dossier. dossier.base.now ≡ base.now) }
    ensures events { IfOk result (λ dossier. dossier.events.now ≡ events.now) }
{
    let of_statements = statement_digests(alloc, papers.statements.as_slice())?;
    let statement_firsts = firsts_of(alloc, of_statements.as_slice())?;
    let grant_firsts = firsts_of(alloc, digests)?;
    Ok(Dossier {
        key,
        base,
        events,
        papers,
        statement_firsts,
        grant_firsts,
    })
}
