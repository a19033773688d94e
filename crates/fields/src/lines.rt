// Lines that bring nothing: blank ones and remarks.
ghost use Rattle.std.specs.Prelude.{◌||◌};
ghost use Rattle.file_rules.specs.Fields.{is_blank, is_remark};
ghost use Rattle.layout.specs.Ensures.{Says};

fn is_blank(line: &[u8]) -> bool
    ensures { Says (is_blank line.now) result }
{
    line.iter().all(|b| (*b == b' ') | (*b == b'\t'))
}

fn is_remark(line: &[u8]) -> bool
    ensures { Says (is_remark line.now) result }
{
    line.starts_with(b"#")
}

pub fn brings_nothing(line: &[u8]) -> bool
    ensures { Says (is_blank line.now || is_remark line.now) result }
{
    is_blank(line) | is_remark(line)
}
