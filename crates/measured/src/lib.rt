// The library's tests of lent bytes and its text call as C functions, so that the benchmark and the tests can link them from another
// language. Each one calls one function of the library and promises what that one promises. They return numbers alone, so that a
// caller declares no struct.
#![tactic(auto)]

ghost use Rattle.std.specs.Prelude.{◌≡◌};
ghost use Rattle.rules.specs.Lists.{is_some};
ghost use Rattle.rules.specs.BookLayout.{records};
ghost use Rattle.rules.specs.Question.{question_of};
ghost use Rattle.rules.specs.TextBook.{entries};
ghost use Rattle.rules.specs.Text.{text, shown};

#[unsafe(no_mangle)]
pub extern "C" fn measured_book_ok(b: &[u8]) -> bool
    ensures { result ≡ is_some (records b.now) }
{
    book::book_ok(b)
}

#[unsafe(no_mangle)]
pub extern "C" fn measured_question_ok(s: &[u8]) -> bool
    ensures { result ≡ is_some (question_of s.now) }
{
    question::question_ok(s)
}

#[unsafe(no_mangle)]
pub extern "C" fn measured_text_book_ok(s: &[u8]) -> bool
    ensures { result ≡ is_some (entries s.now) }
{
    texts::text_book_ok(s)
}

#[unsafe(no_mangle)]
pub extern "C" fn measured_text_number(asked: &[u8], fallback: &[u8], number: u32) -> u8
    ensures { result ≡ (shown (text asked.now fallback.now number)).number }
{
    let answer = texts::text_answer(asked, fallback, number);
    answer.number
}

#[unsafe(no_mangle)]
pub extern "C" fn measured_text_book(asked: &[u8], fallback: &[u8], number: u32) -> u8
    ensures { result ≡ (shown (text asked.now fallback.now number)).book }
{
    let answer = texts::text_answer(asked, fallback, number);
    answer.book
}

#[unsafe(no_mangle)]
pub extern "C" fn measured_text_place(asked: &[u8], fallback: &[u8], number: u32) -> u64
    ensures { result ≡ (shown (text asked.now fallback.now number)).place }
{
    let answer = texts::text_answer(asked, fallback, number);
    answer.place
}

#[unsafe(no_mangle)]
pub extern "C" fn measured_text_length(asked: &[u8], fallback: &[u8], number: u32) -> u64
    ensures { result ≡ (shown (text asked.now fallback.now number)).length }
{
    let answer = texts::text_answer(asked, fallback, number);
    answer.length
}
