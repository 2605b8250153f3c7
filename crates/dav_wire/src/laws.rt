//! What reading is over a stream that comes in pieces, and what is read back. Each law is a
//! function with nothing to do, whose contract says it.

ghost use Rattle.std.specs.Prelude.{◌≡◌, ◌++◌, ◌-◌, ◌<◌, ◌^◌, ◌⊎◌, ℕ, List, length};
ghost use Rattle.jop_target.specs.Replies.{IsReplyTo};
ghost use Rattle.jop_target.specs.declared.call.Call.{Call};
ghost use Rattle.jop_target.specs.declared.reply.Reply.{Reply};
ghost use Rattle.jop_target.specs.declared.reply.Reply.TheVariants.{Failed, GotBlob};
ghost use Rattle.dav_wire.specs.RequestBack.{IsHost, IsSendable, request_for};
ghost use Rattle.dav_wire.specs.RequestReading.{RequestReadsAs, IsRequestMissing};
ghost use Rattle.dav_wire.specs.Requests.{request_text};
ghost use Rattle.dav_wire.specs.ResponseBack.{IsTellable, got_bytes};
ghost use Rattle.dav_wire.specs.ResponseReading.{ResponseReadsAs, IsResponseMissing};
ghost use Rattle.dav_wire.specs.ResponseTexts.{IsResponseTo};
ghost use Rattle.dav_wire.specs.declared.request.Request.{Request};
ghost use Rattle.dav_wire.specs.declared.request_reader.ReadRequest.{ReadRequest};
ghost use Rattle.dav_wire.specs.declared.request_reader.ReadRequest.TheVariants.{Whole, More, Bad};
ghost use Rattle.dav_wire.specs.declared.response_reader.ReadResponse.{ReadResponse};
ghost use Rattle.dav_wire.specs.declared.response_reader.ReadResponse.TheVariants.{Whole as Replied, More as MoreReply, Bad as BadReply};

/// Before its last byte, a request reads as `More`.
pub fn a_cut_request_is_more()
    ensures { (prefix rest : List ℕ) (request : Request) (used : ℕ)
        → RequestReadsAs (prefix ++ rest) (Whole request used) → length prefix < used
        → RequestReadsAs prefix More }
{}

/// Whatever bytes come later, a request and a refusal stay what they are.
pub fn later_bytes_change_no_request()
    ensures whole { (bytes more : List ℕ) (request : Request) (used : ℕ)
        → RequestReadsAs bytes (Whole request used)
        → RequestReadsAs (bytes ++ more) (Whole request used) }
    ensures bad { (bytes more : List ℕ) (status : ℕ)
        → RequestReadsAs bytes (Bad status) → RequestReadsAs (bytes ++ more) (Bad status) }
{}

/// The bytes so far read as one thing: whole, more or bad.
pub fn one_request_is_read()
    ensures { (bytes : List ℕ) (one other : ReadRequest)
        → RequestReadsAs bytes one → RequestReadsAs bytes other → one ≡ other }
{}

/// Wherever the bytes are cut, the first part reads as `More` or as what the whole reads as.
pub fn a_cut_changes_no_request()
    ensures { (prefix rest : List ℕ) (early late : ReadRequest)
        → RequestReadsAs prefix early → RequestReadsAs (prefix ++ rest) late
        → (early ≡ More) ⊎ (early ≡ late) }
{}

/// Before its last byte, a response reads as `More`.
pub fn a_cut_response_is_more()
    ensures { (call : Call) (prefix rest : List ℕ) (reply : Reply) (blob : List ℕ) (used : ℕ)
        → ResponseReadsAs call (prefix ++ rest) (Replied reply blob used) → length prefix < used
        → ResponseReadsAs call prefix MoreReply }
{}

/// Whatever bytes come later, a response, and that there is none, stay what they are.
pub fn later_bytes_change_no_response()
    ensures whole { (call : Call) (bytes more : List ℕ) (reply : Reply) (blob : List ℕ) (used : ℕ)
        → ResponseReadsAs call bytes (Replied reply blob used)
        → ResponseReadsAs call (bytes ++ more) (Replied reply blob used) }
    ensures bad { (call : Call) (bytes more : List ℕ)
        → ResponseReadsAs call bytes BadReply → ResponseReadsAs call (bytes ++ more) BadReply }
{}

/// The bytes so far read as one thing: whole, more or bad.
pub fn one_response_is_read()
    ensures { (call : Call) (bytes : List ℕ) (one other : ReadResponse)
        → ResponseReadsAs call bytes one → ResponseReadsAs call bytes other → one ≡ other }
{}

/// Wherever the bytes are cut, the first part reads as `More` or as what the whole reads as.
pub fn a_cut_changes_no_response()
    ensures { (call : Call) (prefix rest : List ℕ) (early late : ReadResponse)
        → ResponseReadsAs call prefix early → ResponseReadsAs call (prefix ++ rest) late
        → (early ≡ MoreReply) ⊎ (early ≡ late) }
{}

/// A request lacks bytes just as long as it reads as `More` after its head, and each byte that
/// comes is one less.
pub fn missing_bytes_make_a_request()
    ensures more { (bytes : List ℕ) (missing : ℕ)
        → IsRequestMissing bytes missing → 0 < missing → RequestReadsAs bytes More }
    ensures none { (bytes : List ℕ)
        → IsRequestMissing bytes 0 → ¬ (RequestReadsAs bytes More) }
    ensures falls { (bytes more : List ℕ) (missing : ℕ)
        → IsRequestMissing bytes missing
        → IsRequestMissing (bytes ++ more) (missing - length more) }
{}

/// A response lacks bytes just as long as it reads as `More` after its head, and each byte that
/// comes is one less.
pub fn missing_bytes_make_a_response()
    ensures more { (call : Call) (bytes : List ℕ) (missing : ℕ)
        → IsResponseMissing call bytes missing → 0 < missing
        → ResponseReadsAs call bytes MoreReply }
    ensures none { (call : Call) (bytes : List ℕ)
        → IsResponseMissing call bytes 0 → ¬ (ResponseReadsAs call bytes MoreReply) }
    ensures falls { (call : Call) (bytes more : List ℕ) (missing : ℕ)
        → IsResponseMissing call bytes missing
        → IsResponseMissing call (bytes ++ more) (missing - length more) }
{}

/// A written request is read back, whatever follows it.
pub fn a_written_request_is_read()
    ensures { (host : List ℕ) (call : Call) (blob more : List ℕ)
        → IsHost host → IsSendable call blob
        → RequestReadsAs (request_text host call blob ++ more)
        (Whole (request_for call blob) (length (request_text host call blob))) }
{}

/// What is read of a response is a reply that the call may give.
pub fn a_read_reply_fits_its_call()
    ensures { (call : Call) (bytes : List ℕ) (reply : Reply) (blob : List ℕ) (used : ℕ)
        → ResponseReadsAs call bytes (Replied reply blob used) → IsReplyTo call reply }
{}

/// No response tells a failure, and a blob that one tells has the length that it tells.
pub fn a_read_reply_is_told_whole()
    ensures failed { (call : Call) (bytes blob : List ℕ) (used : ℕ)
        → ¬ (ResponseReadsAs call bytes (Replied Failed blob used)) }
    ensures blob { (call : Call) (bytes : List ℕ) (now len : ℕ) (blob : List ℕ) (used : ℕ)
        → ResponseReadsAs call bytes (Replied (GotBlob now len) blob used) → len ≡ length blob }
{}

/// A written response is read back, whatever follows it, if it tells a reply of whole seconds that
/// is neither `Failed` nor `TooLarge`.
pub fn a_written_response_is_read()
    ensures { (call : Call) (reply : Reply) (blob : List ℕ) (date : ℕ) (text more : List ℕ)
        → IsReplyTo call reply → IsTellable reply blob → length text < 2 ^ 64
        → IsResponseTo call reply blob date text
        → ResponseReadsAs call (text ++ more)
        (Replied reply (got_bytes reply blob) (length text)) }
{}
