//! `ProcessingRequest` of `envoy.service.ext_proc.v3`.

use crate::FieldList;
use pb_wire::Blob;

/// What a processor is asked about. A truth value is `end_of_stream`: nothing of this message follows.
#[derive(Drop)]
pub enum Ask {
    RequestHeaders(FieldList, bool),
    ResponseHeaders(FieldList, bool),
    RequestBody(Blob, bool),
    ResponseBody(Blob, bool),
    RequestTrailers(FieldList),
    ResponseTrailers(FieldList),
}
