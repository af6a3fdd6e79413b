//! The digests of statements and of grants.

ghost use Rattle.std.specs.Prelude.{◌≡◌, map, IfOk};
ghost use Rattle.policy_statement.specs.Digest.{digest_of};
ghost use Rattle.issue_standings.specs.Index.{front_of};
ghost use Rattle.pcfs_audit.specs.Firsts.{grant_digest, grant_digests};
ghost use Rattle.pcfs_audit.specs.Papers.{shown};

use bl_syntax::{Grant, NoMemory, Statement};
use policy_statement::digest::digest;
use procap::SealKey;
use rayon::prelude::*;
use std::alloc::Global;
use std::thread::Threads;

/// The digests of the statements.
pub fn statement_digests(alloc: Global, statements: &[&Statement]) -> Result<Vec<u64>, NoMemory>
    ensures { IfOk result (λ digests. digests.items ≡ map digest_of (shown statements.now)) }
{
    let mut digests = Vec::new(alloc);
    for statement in statements {
        digests.push(digest(*statement))?;
    }
    Ok(digests)
}

/// The number that the first eight bytes of a tag make.
pub fn front_of(tag: &[u8; 32]) -> u64
    ensures { result ≡ front_of tag.now }
{
    u64::from_be_bytes([
        tag[0], tag[1], tag[2], tag[3], tag[4], tag[5], tag[6], tag[7],
    ])
}

// The digest of a grant.
fn grant_digest(key: &SealKey, grant: &Grant) -> u64
    ensures { result ≡ grant_digest key.now grant.now }
{
    let tag = key.tag(grant);
    front_of(&tag)
}

/// The digests of the grants.
pub fn grant_digests(alloc: Global, key: &SealKey, grants: &[&Grant]) -> Result<Vec<u64>, NoMemory>
    ensures { IfOk result (λ digests. digests.items ≡ grant_digests key.now (shown grants.now)) }
{
    let mut digests = Vec::new(alloc);
    for grant in grants {
        digests.push(grant_digest(key, *grant))?;
    }
    Ok(digests)
}

/// The digests of the grants, made in several threads, each of at least `least` grants.
pub fn grant_digests_in_pieces<R: Threads + Sync>(
    rt: &R,
    alloc: Global,
    key: &SealKey,
    grants: &[&Grant],
    least: usize,
) -> Result<Vec<u64>, NoMemory>
    ensures { IfOk result (λ digests. digests.items ≡ grant_digests key.now (shown grants.now)) }
{
    let digests = grants
        .par_iter()
        .with_min_len(least)
        .map(
            |grant: &&Grant| -> u64
                ensures { result ≡ grant_digest key.entry.now grant.now.now }
            { grant_digest(key, *grant) },
        )
        .collect(rt, alloc);
    match digests {
        Ok(digests) => Ok(digests),
        Err(_) => Err(NoMemory),
    }
}
