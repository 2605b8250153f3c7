//! What feeding a response in pieces comes to. Each law is a function with nothing to do, whose
//! contract says it.

ghost use Rattle.std.specs.Prelude.{List, [], ℕ};
ghost use Rattle.jop_target.specs.declared.call.Call.{Call};
ghost use Rattle.dav_wire.specs.ResponseReading.{ResponseReadsAs};
ghost use Rattle.dav_wire.specs.declared.response_reader.ReadResponse.{ReadResponse};
ghost use Rattle.reply_reader.specs.Pieces.{Feeds, HasBeenTold, HoldsLittle, RunsTo, SaysAs, text_of_pieces};
ghost use Rattle.reply_reader.specs.declared.fed.Fed.{Fed};
ghost use Rattle.reply_reader.specs.declared.reply_reader.ReplyReader.{ReplyReader};

/// What is said of the bytes so far is what one reading of them says.
pub fn a_fed_response_is_the_read_one()
    ensures { (call : Call) (bytes : List ℕ) (fed : Fed) (new : ReplyReader) (read : ReadResponse)
        → Feeds call bytes fed new → ResponseReadsAs call bytes read → SaysAs bytes fed new read }
{}

/// Whatever pieces a reader is fed, the answer after the last one is what one reading of them joined
/// says, and the reply and the blob are those of that reading.
pub fn fed_pieces_are_read_as_their_bytes()
    ensures { (call : Call) (old new : ReplyReader) (pieces : List (List ℕ)) (last : List ℕ)
        (fed : Fed) (read : ReadResponse)
        → HasBeenTold call old [] → RunsTo old pieces last fed new
        → ResponseReadsAs call (text_of_pieces pieces last) read
        → SaysAs (text_of_pieces pieces last) fed new read }
{}

/// Beside the files of a listing and the content that is got, a reader keeps less than 16,384 bytes of
/// a head and less than 512 of a body.
pub fn little_is_held()
    ensures { (call : Call) (reader : ReplyReader) (told : List ℕ) → HasBeenTold call reader told
        → HoldsLittle reader.state }
{}
