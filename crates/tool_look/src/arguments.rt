//! Reads the arguments.

use std::alloc::{AllocError, Global};
use tool_explain::Kind;
use tool_view::{Asked, Form, To};

/// The options from the arguments so far.
#[derive(Drop)]
pub struct Arguments {
    /// How the next input is shown.
    pub asked: Asked,
    /// The spelling in which the input's bytes are written, if they are written alone.
    pub to: Option<To>,
    /// Whether lines are in colours if no argument says it.
    is_terminal: bool,
}

impl Arguments {
    /// Returns the options before the first argument. Lines have colours if the output is a
    /// terminal.
    pub fn new(alloc: Global, is_terminal: bool) -> Arguments {
        let mut asked = Asked::new(alloc);
        asked.is_colored = is_terminal;
        Arguments {
            asked,
            to: None,
            is_terminal,
        }
    }

    /// Takes the form of the output, and returns true if it is allowed. A page allows no other
    /// form.
    fn takes_form(&mut self, form: Form) -> bool {
        if self.asked.form == Form::Page {
            return form == Form::Page;
        }
        self.asked.form = form;
        true
    }

    /// Takes the spelling in which bytes are written alone. Returns true if its name is known and
    /// it is allowed: not in a page.
    fn takes_spelling(&mut self, name: &str) -> bool {
        self.to = match name {
            _ if self.asked.form == Form::Page => None,
            "hex" => Some(To::Hexadecimal),
            "binary" => Some(To::Binary),
            "base64" => Some(To::Base64),
            _ => None,
        };
        self.to.is_some()
    }

    /// Takes when there are colours, and returns true if the word is known.
    fn takes_color(&mut self, when: &str) -> bool {
        self.asked.is_colored = match when {
            "always" => true,
            "never" => false,
            "auto" => self.is_terminal,
            _ => return false,
        };
        true
    }

    /// Takes an `external_aad`, and returns true if it is hexadecimal.
    fn takes_aad(&mut self, alloc: Global, digits: &str) -> Result<bool, AllocError> {
        match hex::decode(alloc, digits) {
            Ok(bytes) => {
                self.asked.external_aad = bytes;
                Ok(true)
            }
            Err(hex::FromHexError::OutOfMemory) => Err(AllocError),
            Err(_) => Ok(false),
        }
    }

    /// Takes an option, and returns true if it is one.
    fn takes_option(&mut self, alloc: Global, argument: &str) -> Result<bool, AllocError> {
        if let Some(moment) = argument.strip_prefix("--now=") {
            self.asked.now = moment.parse::<i64>().ok();
            return Ok(self.asked.now.is_some() || moment == "none");
        }
        if let Some(digits) = argument.strip_prefix("--external-aad=") {
            return self.takes_aad(alloc, digits);
        }
        if let Some(when) = argument.strip_prefix("--color=") {
            return Ok(self.takes_color(when));
        }
        if let Some(spelling) = argument.strip_prefix("--to=") {
            return Ok(self.takes_spelling(spelling));
        }
        Ok(match argument {
            "--edn" => self.takes_form(Form::Plain),
            "--where" => self.takes_form(Form::Where),
            "--html" => self.takes_form(Form::Page),
            "--json" => self.takes_form(Form::Json),
            "--short" => {
                self.asked.is_short = true;
                true
            }
            "--from=edn" => {
                self.asked.is_notation = true;
                true
            }
            _ => false,
        })
    }

    /// Takes a kind or an option, and returns true if the argument is one.
    ///
    /// # Errors
    /// `AllocError` if an allocation fails.
    pub fn takes(&mut self, alloc: Global, argument: &str) -> Result<bool, AllocError> {
        match Kind::of(argument) {
            Some(kind) => {
                self.asked.kind = kind;
                Ok(true)
            }
            None => self.takes_option(alloc, argument),
        }
    }
}
