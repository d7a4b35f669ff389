// Token files, for C.
ghost use Rattle.pxf.specs.TokenFiles.{FileWritten, FileRead};

use crate::values;

// Writes a token file: `answer` gets the bytes written.
#[tactic(auto, using(crate::proofs::Passed::file_written, crate::proofs::Passed::one_fits, token_file::proofs::AnswerBounds::written_inside))]
#[unsafe(no_mangle)]
pub extern "C" fn pxf_write_token_file(
    records: &[i64],
    count: u64,
    out: &mut [u8],
    answer: &mut [i64; 6],
) -> u8
    ensures { FileWritten records.now count out.old result out.new answer.new }
{
    let r = token_file::write::write_token_file(records, count as usize, out);
    values::give(r, answer)
}

// Reads a token file: `answer` gets the count of tokens.
#[tactic(auto, using(crate::proofs::Passed::file_read, crate::proofs::Passed::one_fits, token_file::proofs::AnswerBounds::loaded_inside))]
#[unsafe(no_mangle)]
pub extern "C" fn pxf_read_token_file(file: &[u8], tokens: &mut [i64], answer: &mut [i64; 6]) -> u8
    ensures { FileRead file.now tokens.old result tokens.new answer.new }
{
    let r = token_file::read::read_token_file(file, tokens);
    values::give(r, answer)
}
