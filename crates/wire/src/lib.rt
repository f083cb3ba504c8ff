// The wire library: LAYOUTRETURN (RFC 8881), from bytes and to bytes. Paper 01, "LAYOUTRETURN".
//     request    the arguments of a LAYOUTRETURN: steps 1 to 3
//     body       the body, as the part of the request where it lies
//     stateid    the stateid of a request, and that of an `other` that a caller gives
//     seqid      older and newer seqids, and the next one
//     reply      the reply
#![tactic(auto)]

pub mod body;
pub mod reply;
pub mod request;
pub mod seqid;
pub mod stateid;
