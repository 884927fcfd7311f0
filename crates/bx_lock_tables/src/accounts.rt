//! What a lock server keeps of each session.

ghost use Rattle.std.specs.Prelude.{◌≡◌, ◌<◌, filter, slice_get, vec_len, IfOk, OnOk};
ghost use Rattle.std.specs.Option.{option_copied};
ghost use Rattle.bx_lock_tables.specs.Accounts.{Opens, account_in, end_in, expires_in, has_row, is_of, listed, marked, noting, place, row_for, rows_at};

use crate::row_map::RowMap;
use crate::rows::Row;
use bx_base::OutOfMemory;
use bx_global::GlobalState;
use bx_rows::find_row as find_session;
use std::alloc::Global;

/// What a lock server keeps of a session. A list of accounts is in the order of the sessions.
#[derive(Drop)]
pub struct Account {
    /// The session.
    pub session: u64,
    /// The last end that was promised to it, in milliseconds; 0 for none.
    pub noted: u64,
    /// Whether its expiry was asked for.
    pub expiring: bool,
    /// What was granted to it, by block.
    pub rows: RowMap,
}

/// The account of a session; `None` exactly where it has none.
fn account_of(accounts: &[Account], session: u64) -> Option<&Account>
    ensures { option_copied result ≡ account_in accounts.now session }
{
    for account in accounts {
        if account.session == session {
            return Some(account);
        }
        if session < account.session {
            return None;
        }
    }
    None
}

/// The last end that was promised to a session, in milliseconds; 0 for none.
pub fn noted_end(accounts: &[Account], session: u64) -> u64
    ensures { result ≡ end_in accounts.now session }
{
    match account_of(accounts, session) {
        None => 0,
        Some(account) => account.noted,
    }
}

/// Whether a session's expiry was asked for.
pub fn is_expiring(accounts: &[Account], session: u64) -> bool
    ensures { result ≡ expires_in accounts.now session }
{
    match account_of(accounts, session) {
        None => false,
        Some(account) => account.expiring,
    }
}

/// What a session was granted last of a block; `None` exactly where that is nothing.
pub fn row_for(accounts: &[Account], session: u64, block: u64) -> Option<Row>
    ensures { result ≡ row_for accounts.now session block }
{
    account_of(accounts, session)?.rows.get(block)
}

/// The rows of a block, in the order of the sessions.
pub fn rows_at(alloc: Global, accounts: &[Account], block: u64) -> Result<Vec<Row>, OutOfMemory>
    ensures { IfOk result (λ rows. rows.items ≡ rows_at accounts.now block) }
{
    let mut rows = Vec::new(alloc);
    for account in accounts {
        if let Some(row) = account.rows.get(block) {
            rows.push(row)?;
        }
    }
    Ok(rows)
}

/// The place of the first account that isn't of a lower session.
fn place_of(accounts: &[Account], session: u64) -> usize
    ensures { result ≡ place accounts.now session }
{
    for at in 0..accounts.len() {
        if accounts[at].session >= session {
            return at;
        }
    }
    accounts.len()
}

/// Whether the account of a session stands at a place.
fn is_at(accounts: &[Account], at: usize, session: u64) -> bool
    ensures { result ≡ is_of (slice_get accounts.now at) session }
{
    match accounts.get(at) {
        None => false,
        Some(account) => account.session == session,
    }
}

/// The place of a session's account, which is put there where there was none.
fn find_or_add(
    alloc: Global,
    accounts: &mut Vec<Account>,
    session: u64,
) -> Result<usize, OutOfMemory>
    ensures within { IfOk result (λ at. at < vec_len accounts.new) }
    ensures opens { IfOk result (λ at. Opens accounts.old.items session at accounts.new.items) }
{
    let at = place_of(accounts, session);
    if is_at(accounts, at, session) {
        return Ok(at);
    }
    accounts.insert(
        at,
        Account {
            session,
            noted: 0,
            expiring: false,
            rows: RowMap::new(alloc),
        },
    )?;
    Ok(at)
}

/// Notes the end that is promised to a session.
pub fn note_end(
    alloc: Global,
    accounts: &mut Vec<Account>,
    session: u64,
    end: u64,
) -> Result<(), OutOfMemory>
    ensures { OnOk result (accounts.new.items ≡ noting session end accounts.old.items) }
{
    let at = find_or_add(alloc, accounts, session)?;
    accounts[at].noted = end;
    Ok(())
}

/// Notes that a session's expiry was asked for.
pub fn mark_expiring(
    alloc: Global,
    accounts: &mut Vec<Account>,
    session: u64,
) -> Result<(), OutOfMemory>
    ensures { OnOk result (accounts.new.items ≡ marked session accounts.old.items) }
{
    let at = find_or_add(alloc, accounts, session)?;
    accounts[at].expiring = true;
    Ok(())
}

/// Lists what a session is granted of a block.
pub fn list_row(
    alloc: Global,
    accounts: &mut Vec<Account>,
    session: u64,
    block: u64,
    row: Row,
) -> Result<(), OutOfMemory>
    ensures { OnOk result (accounts.new.items ≡ listed session block row accounts.old.items) }
{
    let at = find_or_add(alloc, accounts, session)?;
    accounts[at].rows.put(block, row)?;
    Ok(())
}

/// Whether a session has a row in a state.
fn is_known(known: &GlobalState, session: u64) -> bool
    ensures { result ≡ has_row known.now session }
{
    find_session(known.sessions.items(), session).is_some()
}

/// Drops the accounts of sessions that have no row any more.
pub fn forget(accounts: &mut Vec<Account>, known: &GlobalState)
    ensures { accounts.new.items ≡ filter (λ account. has_row known.now account.session) accounts.old.items }
{
    accounts.retain(|account| is_known(known, account.session));
}
