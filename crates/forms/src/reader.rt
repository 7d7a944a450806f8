// How a line is read as a form.
ghost use Rattle.std.specs.Prelude.{◌≡◌, map, IfOk, if◌then◌else◌, Ok, Err};
ghost use Rattle.std.specs.Option.{ok_or};
ghost use Rattle.tokens.specs.Cursor.{ahead};
ghost use Rattle.tokens.specs.declared.token.LineFault.TheVariants.{NoForm};
ghost use Rattle.forms.specs.Forms.{acts_in, between, time_in, task_in, is_closed, form_by, form_after, form_in, form_of};
ghost use Rattle.forms.specs.Views.{act_of, task_says, says_of, Means, StandsOn};

use crate::fault::FormFault;
use crate::form::{Form, Setting, Step, TaskForm};
use crate::step::next_step;
use std::alloc::Global;
use tokens::cursor::Tokens;
use tokens::number::Numeral;
use tokens::token::LineFault;

// A reader of a line: what it has of memory, the line's number, and the tokens that are left.
#[derive(Drop)]
struct Reader<'a> {
    heap: Global,
    line_number: usize,
    tokens: Tokens<'a>,
}

impl<'a> Reader<'a> {
    // The form closes here, and ends the line.
    fn end(&mut self) -> Result<(), LineFault>
        ensures { result ≡ (if is_closed (ahead self.old.tokens) then Ok tt else Err NoForm) }
    {
        self.tokens.closes().then_some(()).ok_or(LineFault::NoForm)
    }

    // The time that a setting gives, if the form closes after it and ends the line.
    fn time(&mut self) -> Result<u64, LineFault>
        ensures { result ≡ ok_or (time_in (ahead self.old.tokens)) NoForm }
    {
        let digits = self.tokens.number().ok_or(LineFault::NoForm)?;
        self.end()?;
        u64::read(digits)
    }

    // The steps of a task up to the bracket that closes it, which ends the line.
    fn steps(&mut self) -> Result<Vec<Step<'a>>, FormFault>
        ensures { Means (λ steps. map act_of steps.items) (acts_in between (ahead self.old.tokens)) result }
    {
        let mut steps = Vec::new(self.heap);
        while let Some(step) = next_step(&mut self.tokens)? {
            steps.push(step)?;
        }
        Ok(steps)
    }

    // The task on this line, after its keyword.
    fn task(&mut self) -> Result<TaskForm<'a>, FormFault>
        ensures task { Means task_says (task_in (ahead self.old.tokens)) result }
        ensures line { IfOk result (λ t. t.line ≡ self.old.line_number) }
    {
        let name = self.tokens.name().ok_or(LineFault::NoForm)?;
        Ok(TaskForm {
            name,
            line: self.line_number,
            steps: self.steps()?,
        })
    }

    // The form that a keyword and the tokens after it are.
    fn keyed(&mut self, keyword: &[u8]) -> Result<Form<'a>, FormFault>
        ensures form { Means says_of (form_by keyword.now (ahead self.old.tokens)) result }
        ensures line { IfOk result (StandsOn self.old.line_number) }
    {
        match keyword {
            b"cycle" => Ok(Form::Setting(Setting::Cycle(self.time()?))),
            b"start" => Ok(Form::Setting(Setting::Start(self.time()?))),
            b"timeout" => Ok(Form::Setting(Setting::Timeout(self.time()?))),
            b"catch" => {
                self.end()?;
                Ok(Form::Setting(Setting::Catch))
            }
            b"task" => Ok(Form::Task(self.task()?)),
            _ => Err(FormFault::NoForm),
        }
    }

    // The form that the tokens of the line are.
    fn form(&mut self) -> Result<Form<'a>, FormFault>
        ensures form { Means says_of (form_in (ahead self.old.tokens)) result }
        ensures line { IfOk result (StandsOn self.old.line_number) }
    {
        if !self.tokens.opens() {
            return Err(FormFault::NoForm);
        }
        let keyword = self.tokens.word().ok_or(LineFault::NoForm)?;
        self.keyed(keyword)
    }
}

// The form that a line is, or that it is none; a task keeps the number of the line that it stands on.
pub fn read_form<'a>(
    heap: Global,
    line_number: usize,
    line: &'a [u8],
) -> Result<Form<'a>, FormFault>
    ensures form { Means says_of (form_of line.now) result }
    ensures line { IfOk result (StandsOn line_number) }
{
    let mut reader = Reader {
        heap,
        line_number,
        tokens: Tokens::new(line),
    };
    reader.form()
}
