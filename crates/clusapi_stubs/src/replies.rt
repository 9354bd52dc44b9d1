//! A stub as the results of a method.

ghost use Rattle.std.specs.Prelude.{IfErr, IfOk};
ghost use Rattle.clusapi_stubs.specs.declared.output.Out.{Out};
ghost use Rattle.clusapi_stubs.specs.Results.{GivesOutput, IsOutput, IsReadAsOutput, OutputBad, TakesOutput, TextsLackZero, output_in};

use crate::fault::InFault;
use crate::output::Out;
use crate::returned as of;
use std::alloc::Global;
use wire_fields::{Endian, Fields};

/// The results of the method with this operation number. Every referent is accepted, and bytes behind
/// the last result are ignored.
pub fn read_out(alloc: Global, opnum: u16, endian: Endian, stub: &[u8]) -> Result<Out, InFault>
    ensures read { IsReadAsOutput result (output_in opnum endian stub.now) }
    ensures found { IfOk result (λ out. IsOutput opnum endian stub.now out) }
    ensures texts { IfOk result TextsLackZero }
    ensures only { (out : Out) → IsOutput opnum endian stub.now out → GivesOutput result out }
    ensures fault { IfErr result (λ fault. OutputBad opnum endian stub.now fault) }
{
    let mut from = Fields::new(stub, endian);
    output(alloc, opnum, &mut from)
}

fn output(alloc: Global, opnum: u16, from: &mut Fields<'_>) -> Result<Out, InFault>
    ensures { TakesOutput opnum result from.old from.new }
{
    match opnum {
        0 => of::open_cluster(from),
        1 => of::close_cluster(from),
        3 => of::get_cluster_name(alloc, from),
        28 => of::get_root_key(from),
        29 => of::create_key(from),
        30 => of::open_key(from),
        31 => of::enum_key(alloc, from),
        32 => of::set_value(from),
        33 => of::delete_value(from),
        34 => of::query_value(alloc, from),
        35 => of::delete_key(from),
        36 => of::enum_value(alloc, from),
        37 => of::close_key(from),
        38 => of::query_info_key(from),
        _ => Err(InFault::Opnum),
    }
}
