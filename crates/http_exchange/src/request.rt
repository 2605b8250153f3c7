ghost use Rattle.std.specs.Prelude.{◌≡◌, IfErr, IfOk, OnOk, length};
ghost use Rattle.http1.specs.declared.error.WriteError.TheVariants.{OutOfMemory};
ghost use Rattle.http1.specs.Head.{pairs};
ghost use Rattle.http_exchange.specs.Texts.{IsUnwritable, exchange_text, past_request};

use dav_link::LinkErr;
use http1::{BodySize, Client, Header, WriteError};
use jop_base::Bytes;
use std::alloc::Global;

fn link_err(error: WriteError) -> LinkErr
    ensures memory { error ≡ OutOfMemory → result ≡ LinkErr.NoMemory }
    ensures other { ¬ (result ≡ LinkErr.TooLong) }
{
    match error {
        WriteError::OutOfMemory => LinkErr::NoMemory,
        _ => LinkErr::Fault,
    }
}

/// The text of a request, which the client then counts as sent. `Fault` if `http1` refuses to write it.
pub fn write_text(
    alloc: Global,
    client: &mut Client,
    method: &[u8],
    target: &[u8],
    headers: &[Header<'_>],
    body: &[u8],
) -> Result<Bytes, LinkErr>
    ensures text { IfOk result (λ text.
        text ≡ exchange_text client.old method.now target.now (pairs headers.now) body.now) }
    ensures sent { OnOk result
        (client.new ≡ past_request client.old method.now (pairs headers.now) (length body.now)) }
    ensures refused { IfErr result (λ e. e ≡ LinkErr.Fault
        → IsUnwritable client.old method.now target.now (pairs headers.now) body.now) }
    ensures kind { IfErr result (λ e. ¬ (e ≡ LinkErr.TooLong)) }
{
    let mut text = Vec::new(alloc);
    let size = BodySize::Known(body.len() as u64);
    match client.write_request(&mut text, method, target, headers, size) {
        Ok(()) => {}
        Err(error) => return Err(link_err(error)),
    }
    match client.write_data(&mut text, body) {
        Ok(()) => {}
        Err(error) => return Err(link_err(error)),
    }
    match client.write_end(&mut text, &[]) {
        Ok(()) => {}
        Err(error) => return Err(link_err(error)),
    }
    Ok(Bytes::from_vec(text))
}
