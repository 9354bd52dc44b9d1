//! Laws of the definitions, each the contract of a function that does nothing.

ghost use Rattle.std.specs.Prelude.{[], IsTrue};
ghost use Rattle.wire_fields.specs.declared.endian.Endian.{Endian};
ghost use Rattle.clusapi_stubs.specs.declared.input.In.{In};
ghost use Rattle.clusapi_stubs.specs.declared.output.Out.{Out};
ghost use Rattle.clusapi_stubs.specs.Grammar.{IsInput};
ghost use Rattle.clusapi_stubs.specs.Inputs.{opnum_of, parameters, size_fits};
ghost use Rattle.clusapi_stubs.specs.Outputs.{encoding, results};
ghost use Rattle.clusapi_stubs.specs.Requests.{AllFit};
ghost use Rattle.clusapi_stubs.specs.Results.{IsOutput, method_of};

/// What [`write_in`](crate::write_in) writes, [`read_in`](crate::read_in) reads, where the size of the
/// parameters fits.
pub fn parameters_are_read()
    ensures { (endian : Endian) (input : In) → AllFit (parameters input) → IsTrue (size_fits input) → IsInput (opnum_of input) endian (encoding endian [] (parameters input)) input }
{}

/// What [`write_out`](crate::write_out) writes, [`read_out`](crate::read_out) reads.
pub fn results_are_read()
    ensures { (endian : Endian) (out : Out) → AllFit (results out) → IsOutput (method_of out) endian (encoding endian [] (results out)) out }
{}
