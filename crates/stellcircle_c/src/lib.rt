// What a C server links: a static library with one export for each call of include/stellcircle.h, which calls the library's function of that name and states its
// clauses again; what it does, that function says. No rule stands here, and tests/exports.py sees that the clauses are the same. One file for each part of the header, in its order:
//     bodies      layout bodies, SCSI's and RDMA's
//     commit      LAYOUTCOMMIT
//     request     LAYOUTRETURN requests and replies
//     report      the body of a flexible files LAYOUTRETURN
//     record      the recovery record
//     cluster     the epochs of a cluster
#![tactic(auto)]

mod bodies;
mod cluster;
mod commit;
mod record;
mod report;
mod request;
