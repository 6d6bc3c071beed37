//! The example of the guide: the configuration and the script of examples/, and the transcript that the guide shows, with
//! servers in memory. `tools/examples` sees that they are the same.
use crate::running::{End, Runtime, runs};
use xa_program::LocalYard;

/// The configuration.
pub const CONFIG: &[u8] = b"\
    # A bank. Transfers are checked at the queue QT by one server, and accounts are kept at the queue QA by two.\n\
    # Each server is the monitor's own program, which has the routines TRANSFER, ACCT, LEN, FAIL and DIE.\n\
    \n\
    [[shape]]\n\
    name = \"entry\"\n\
    fields = [\"account int\", \"amount long\", \"memo string 16\"]\n\
    \n\
    [[queue]]\n\
    name = \"QT\"\n\
    \n\
    [[queue]]\n\
    name = \"QA\"\n\
    \n\
    # It is started again once.\n\
    [[server]]\n\
    name = \"CHECK\"\n\
    queue = \"QT\"\n\
    restart = true\n\
    maxgen = 2\n\
    \n\
    [[server]]\n\
    name = \"BOOK1\"\n\
    queue = \"QA\"\n\
    \n\
    [[server]]\n\
    name = \"BOOK2\"\n\
    queue = \"QA\"\n\
    \n\
    # It takes entries alone, or no data, and forwards them to ACCT.\n\
    [[service]]\n\
    name = \"TRANSFER\"\n\
    queues = [\"QT\"]\n\
    accepts = [\"c:entry\"]\n\
    \n\
    [[service]]\n\
    name = \"REJECT\"\n\
    routine = \"FAIL\"\n\
    queues = [\"QT\"]\n\
    \n\
    # Its server ends and returns nothing, as that of HALT.\n\
    [[service]]\n\
    name = \"STOP\"\n\
    routine = \"DIE\"\n\
    queues = [\"QT\"]\n\
    \n\
    [[service]]\n\
    name = \"ACCT\"\n\
    queues = [\"QA\"]\n\
    accepts = [\"c:entry\"]\n\
    \n\
    [[service]]\n\
    name = \"BALANCE\"\n\
    routine = \"LEN\"\n\
    queues = [\"QA\"]\n\
    \n\
    [[service]]\n\
    name = \"HALT\"\n\
    routine = \"DIE\"\n\
    queues = [\"QA\"]\n";

/// The script.
pub const SCRIPT: &[u8] = b"\
    # A script for `run examples/bank.toml`: two clients, each with its calls.\n\
    \n\
    client teller\n\
    # CHECK forwards it to ACCT.\n\
    call TRANSFER c entry account=7 amount=250 memo=\"rent\"\n\
    # There is no account 0, so CHECK returns it.\n\
    call TRANSFER c entry account=0 amount=5\n\
    call BALANCE text \"17\"\n\
    # BOOK1 or BOOK2 ends with this call, and the other one serves the next that come to QA.\n\
    call HALT none\n\
    call TRANSFER c entry account=12 amount=-1 memo=\"void\"\n\
    # The other one ends too, so QA has no server left.\n\
    call HALT none\n\
    call BALANCE text \"17\"\n\
    # CHECK forwards it, and there is no ACCT.\n\
    call TRANSFER c entry account=7 amount=250 memo=\"rent\"\n\
    \n\
    client branch\n\
    # TRANSFER takes no X_OCTET.\n\
    call TRANSFER text \"250\"\n\
    call REJECT text \"9999\"\n\
    # CHECK ends with this call, and is started again.\n\
    call STOP none\n\
    call REJECT text \"17\"\n";

const WROTE: &[u8] = b"\
    teller 1 OK 0 c:entry 0000000700000000000000fa626f6f6b656400000000000000000000\n\
    teller 2 TPESVCFAIL 3 c:entry 00000000000000000000000500000000000000000000000000000000\n\
    teller 3 OK 2 none\n\
    teller 4 TPESVCERR\n\
    teller 5 TPESVCFAIL 2 c:entry 0000000cffffffffffffffff766f6964000000000000000000000000\n\
    teller 6 TPESVCERR\n\
    teller 7 TPENOENT\n\
    teller 8 TPESVCERR\n\
    branch 1 TPEITYPE\n\
    branch 2 TPESVCFAIL 7 octet 39393939\n\
    branch 3 TPESVCERR\n\
    branch 4 TPESVCFAIL 7 octet 3137\n";

fn serves_the_bank<R: Runtime>(rt: &R) -> bool {
    let files: [(&[u8], &[u8]); 1] = [(b"bank.toml", CONFIG)];
    runs(
        rt,
        &["run", "bank.toml"],
        (&files, &[]),
        (SCRIPT, &[], &[]),
        &mut LocalYard::new(rt.alloc()),
        (End::Done, WROTE),
    )
}

#[test]
fn the_bank_is_served_as_the_guide_shows(rt: HostRuntime) {
    assert!(rt; serves_the_bank(&rt));
}
